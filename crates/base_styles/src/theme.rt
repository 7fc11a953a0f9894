use crate::color::{Color, ThemeColor};
use base_values::Exact;

/// A colour by its parts.
#[derive(Clone, Copy, Debug, PartialEq, Eq)]
pub struct RgbColor {
    pub red: u8,
    pub green: u8,
    pub blue: u8,
}

impl Exact for RgbColor {
    ghost use Rattle.std.proofs.Common.{rules};
    ghost use Rattle.base_styles.specs.laws.ThemeEquals.{rgb_color_equals};

    ghost copies = { λ a b h. Prim.search rules };

    ghost equals = { rgb_color_equals };
}

/// The colours that the styles of a workbook name.
#[derive(Clone, Copy, Debug, PartialEq, Eq)]
pub struct Theme {
    pub light1: RgbColor,
    pub dark1: RgbColor,
    pub light2: RgbColor,
    pub dark2: RgbColor,
    pub accent1: RgbColor,
    pub accent2: RgbColor,
    pub accent3: RgbColor,
    pub accent4: RgbColor,
    pub accent5: RgbColor,
    pub accent6: RgbColor,
    pub hyperlink: RgbColor,
    pub followed_hyperlink: RgbColor,
}

impl Exact for Theme {
    ghost use Rattle.std.proofs.Common.{rules};
    ghost use Rattle.base_styles.specs.laws.ThemeEquals.{theme_equals};

    ghost copies = { λ a b h. Prim.search rules };

    ghost equals = { theme_equals };
}

impl RgbColor {
    ghost use Rattle.std.specs.Prelude.{◌≡◌};
    ghost use Rattle.base_styles.specs.Themes.{rgb};

    /// The colour with these parts.
    pub fn new(red: u8, green: u8, blue: u8) -> RgbColor
        ensures { result ≡ rgb red green blue }
    {
        RgbColor { red, green, blue }
    }
}

impl Default for Theme {
    ghost use Rattle.std.specs.Prelude.{◌≡◌};
    ghost use Rattle.base_styles.specs.Themes.{default_theme};

    ghost is_default = { λ theme. theme ≡ default_theme };

    /// The theme of a new workbook.
    fn default() -> Theme {
        Theme {
            light1: RgbColor::new(0xFF, 0xFF, 0xFF),
            dark1: RgbColor::new(0x00, 0x00, 0x00),
            light2: RgbColor::new(0xE7, 0xE6, 0xE6),
            dark2: RgbColor::new(0x44, 0x54, 0x6A),
            accent1: RgbColor::new(0x44, 0x72, 0xC4),
            accent2: RgbColor::new(0xED, 0x7D, 0x31),
            accent3: RgbColor::new(0xA5, 0xA5, 0xA5),
            accent4: RgbColor::new(0xFF, 0xC0, 0x00),
            accent5: RgbColor::new(0x5B, 0x9B, 0xD5),
            accent6: RgbColor::new(0x70, 0xAD, 0x47),
            hyperlink: RgbColor::new(0x05, 0x63, 0xC1),
            followed_hyperlink: RgbColor::new(0x95, 0x4F, 0x72),
        }
    }
}

impl Theme {
    ghost use Rattle.std.specs.Prelude.{◌≡◌};
    ghost use Rattle.base_styles.specs.Themes.{theme_color, resolved};

    /// The parts of a colour of the theme.
    pub fn color(&self, color: ThemeColor) -> RgbColor
        ensures { result ≡ theme_color self.now color }
    {
        match color {
            ThemeColor::Light1 => self.light1,
            ThemeColor::Dark1 => self.dark1,
            ThemeColor::Light2 => self.light2,
            ThemeColor::Dark2 => self.dark2,
            ThemeColor::Accent1 => self.accent1,
            ThemeColor::Accent2 => self.accent2,
            ThemeColor::Accent3 => self.accent3,
            ThemeColor::Accent4 => self.accent4,
            ThemeColor::Accent5 => self.accent5,
            ThemeColor::Accent6 => self.accent6,
            ThemeColor::Hyperlink => self.hyperlink,
            ThemeColor::FollowedHyperlink => self.followed_hyperlink,
        }
    }

    /// The parts of a colour in this theme, or `None` where it is no colour.
    pub fn resolve(&self, color: Color) -> Option<RgbColor>
        ensures { result ≡ resolved self.now color }
    {
        match color {
            Color::None => None,
            Color::Rgb { red, green, blue } => Some(RgbColor::new(red, green, blue)),
            Color::Theme(named) => Some(self.color(named)),
        }
    }
}
