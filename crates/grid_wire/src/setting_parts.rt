//! Colours of themes, themes, locales and time zones as parts of formats.

use crate::reading_settings::{locale_at, rgb_at, theme_at, zone_at};
use crate::writing_settings::{put_rgb, put_theme};
use base_styles::{RgbColor, Theme};
use base_tables::{Locale, Zone};
use base_values::EditError;
use base_wire::Part;
use std::alloc::{AllocError, Global};

/// The red, green and blue parts of a colour.
pub(crate) struct RgbPart;

impl Part for RgbPart {
    ghost use Rattle.std.proofs.Common.{arith};
    ghost use Rattle.base_wire.specs.Encoding.{Any};
    ghost use Rattle.grid_wire.specs.ThemeBytes.{encode_rgb, FitsRgb};
    ghost use Rattle.grid_wire.specs.laws.SettingReading.{rgb_at};
    ghost use Rattle.grid_wire.specs.laws.SettingFormats.{rgb_format};

    type Value = RgbColor;

    type Context = ();

    ghost Known = { Any };

    ghost Fits = { FitsRgb };

    ghost encoding = { encode_rgb };

    ghost reading = { rgb_at };

    fn put(out: &mut Vec<u8>, value: &RgbColor) -> Result<(), AllocError> {
        put_rgb(out, *value)
    }

    fn take<'a>(
        alloc: Global,
        _context: &(),
        bytes: &'a [u8],
    ) -> Result<(RgbColor, &'a [u8]), EditError> {
        rgb_at(alloc, bytes)
    }

    ghost format = { rgb_format };

    ghost some = { λ x. Prim.omega arith };
}

/// A theme: its twelve colours in their order, three bytes each (docs/FORMATS.md, "Bytes").
pub struct ThemePart;

impl Part for ThemePart {
    ghost use Rattle.base_wire.specs.Encoding.{Any};
    ghost use Rattle.grid_wire.specs.ThemeBytes.{encode_theme, FitsTheme};
    ghost use Rattle.grid_wire.specs.laws.SettingReading.{theme_at};
    ghost use Rattle.grid_wire.specs.laws.SettingFormats.{theme_format, theme_some};

    type Value = Theme;

    type Context = ();

    ghost Known = { Any };

    ghost Fits = { FitsTheme };

    ghost encoding = { encode_theme };

    ghost reading = { theme_at };

    fn put(out: &mut Vec<u8>, value: &Theme) -> Result<(), AllocError> {
        put_theme(out, value)
    }

    fn take<'a>(
        alloc: Global,
        _context: &(),
        bytes: &'a [u8],
    ) -> Result<(Theme, &'a [u8]), EditError> {
        theme_at(alloc, bytes)
    }

    ghost format = { theme_format };

    ghost some = { theme_some };
}

/// A locale: its code.
pub struct LocalePart;

impl Part for LocalePart {
    ghost use Rattle.std.proofs.Common.{arith};
    ghost use Rattle.base_wire.specs.Encoding.{Any};
    ghost use Rattle.grid_wire.specs.TableBytes.{encode_locale};
    ghost use Rattle.grid_wire.specs.laws.SettingReading.{locale_at};
    ghost use Rattle.grid_wire.specs.laws.SettingFormats.{locale_format};

    type Value = Locale;

    type Context = ();

    ghost Known = { Any };

    ghost Fits = { Any };

    ghost encoding = { encode_locale };

    ghost reading = { locale_at };

    fn put(out: &mut Vec<u8>, value: &Locale) -> Result<(), AllocError> {
        out.push(value.code())?;
        Ok(())
    }

    fn take<'a>(
        alloc: Global,
        _context: &(),
        bytes: &'a [u8],
    ) -> Result<(Locale, &'a [u8]), EditError> {
        locale_at(alloc, bytes)
    }

    ghost format = { locale_format };

    ghost some = { λ x. Prim.omega arith };
}

/// A time zone: its code.
pub struct ZonePart;

impl Part for ZonePart {
    ghost use Rattle.std.proofs.Common.{arith};
    ghost use Rattle.base_wire.specs.Encoding.{Any};
    ghost use Rattle.grid_wire.specs.TableBytes.{encode_zone};
    ghost use Rattle.grid_wire.specs.laws.SettingReading.{zone_at};
    ghost use Rattle.grid_wire.specs.laws.SettingFormats.{zone_format};

    type Value = Zone;

    type Context = ();

    ghost Known = { Any };

    ghost Fits = { Any };

    ghost encoding = { encode_zone };

    ghost reading = { zone_at };

    fn put(out: &mut Vec<u8>, value: &Zone) -> Result<(), AllocError> {
        out.push(value.code())?;
        Ok(())
    }

    fn take<'a>(
        alloc: Global,
        _context: &(),
        bytes: &'a [u8],
    ) -> Result<(Zone, &'a [u8]), EditError> {
        zone_at(alloc, bytes)
    }

    ghost format = { zone_format };

    ghost some = { λ x. Prim.omega arith };
}
