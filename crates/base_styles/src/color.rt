use base_values::Exact;

/// A colour of a workbook's theme, in the order of the theme.
#[derive(Clone, Copy, Debug, PartialEq, Eq)]
pub enum ThemeColor {
    Light1,
    Dark1,
    Light2,
    Dark2,
    Accent1,
    Accent2,
    Accent3,
    Accent4,
    Accent5,
    Accent6,
    Hyperlink,
    FollowedHyperlink,
}

impl ThemeColor {
    ghost use Rattle.std.specs.Prelude.{◌≡◌};
    ghost use Rattle.base_tables.specs.Tables.{entry_named};
    ghost use Rattle.base_styles.specs.Colors.{all_theme_colors, theme_color_code, theme_color_of_code, theme_color_name};

    /// All colours of a theme, in its order.
    pub const ALL: [ThemeColor; 12] = [
        ThemeColor::Light1,
        ThemeColor::Dark1,
        ThemeColor::Light2,
        ThemeColor::Dark2,
        ThemeColor::Accent1,
        ThemeColor::Accent2,
        ThemeColor::Accent3,
        ThemeColor::Accent4,
        ThemeColor::Accent5,
        ThemeColor::Accent6,
        ThemeColor::Hyperlink,
        ThemeColor::FollowedHyperlink,
    ];

    /// The number of the colour, from 0 in the order of the theme.
    pub fn code(self) -> u8
        ensures { result ≡ theme_color_code self }
    {
        match self {
            ThemeColor::Light1 => 0,
            ThemeColor::Dark1 => 1,
            ThemeColor::Light2 => 2,
            ThemeColor::Dark2 => 3,
            ThemeColor::Accent1 => 4,
            ThemeColor::Accent2 => 5,
            ThemeColor::Accent3 => 6,
            ThemeColor::Accent4 => 7,
            ThemeColor::Accent5 => 8,
            ThemeColor::Accent6 => 9,
            ThemeColor::Hyperlink => 10,
            ThemeColor::FollowedHyperlink => 11,
        }
    }

    /// The colour with that number, or `None` where no colour has it.
    pub fn from_code(code: u8) -> Option<ThemeColor>
        ensures { result ≡ theme_color_of_code code }
    {
        ThemeColor::ALL.get(usize::from(code)).copied()
    }

    /// The colour in words: `theme:` and its number, from 0 to 11.
    pub fn name(self) -> &'static str
        ensures { result.now ≡ theme_color_name self }
    {
        match self {
            ThemeColor::Light1 => "theme:0",
            ThemeColor::Dark1 => "theme:1",
            ThemeColor::Light2 => "theme:2",
            ThemeColor::Dark2 => "theme:3",
            ThemeColor::Accent1 => "theme:4",
            ThemeColor::Accent2 => "theme:5",
            ThemeColor::Accent3 => "theme:6",
            ThemeColor::Accent4 => "theme:7",
            ThemeColor::Accent5 => "theme:8",
            ThemeColor::Accent6 => "theme:9",
            ThemeColor::Hyperlink => "theme:10",
            ThemeColor::FollowedHyperlink => "theme:11",
        }
    }

    /// The colour that has the text as its name, or `None` where no colour has it.
    pub fn from_name(text: &str) -> Option<ThemeColor>
        ensures { result ≡ entry_named theme_color_name all_theme_colors text.now }
    {
        ThemeColor::ALL
            .iter()
            .copied()
            .find(|color| color.name() == text)
    }
}

impl Exact for ThemeColor {
    ghost use Rattle.std.proofs.Common.{rules};
    ghost use Rattle.base_styles.specs.laws.ColorEquals.{theme_color_equals};

    ghost copies = { λ a b h. Prim.search rules };

    ghost equals = { theme_color_equals };
}

/// A colour, or none.
#[derive(Clone, Copy, Debug, PartialEq, Eq)]
pub enum Color {
    None,
    Rgb { red: u8, green: u8, blue: u8 },
    Theme(ThemeColor),
}

impl Exact for Color {
    ghost use Rattle.std.proofs.Common.{rules};
    ghost use Rattle.base_styles.specs.laws.ColorEquals.{color_equals};

    ghost copies = { λ a b h. Prim.search rules };

    ghost equals = { color_equals };
}
