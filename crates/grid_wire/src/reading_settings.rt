//! Themes, locales and time zones from the front of bytes.

ghost use Rattle.std.specs.Prelude.{◌≡◌};
ghost use Rattle.base_values.specs.Answers.{Answers, map_ok, ok_or};
ghost use Rattle.base_values.specs.declared.EditError.TheVariants.{ParseDiffs};
ghost use Rattle.base_tables.specs.Locale.{locale_of_code};
ghost use Rattle.base_tables.specs.Zone.{zone_of_code};
ghost use Rattle.grid_wire.specs.laws.SettingReading.{locale_at, zone_at, rgb_at, theme_at};

use crate::setting_parts::RgbPart;
use base_styles::{RgbColor, Theme};
use base_tables::{Locale, Zone};
use base_values::EditError;
use base_wire::read;
use std::alloc::Global;

#[tactic(auto, unfolding(crate::specs::laws::SettingReading::rgb_at))]
pub(crate) fn rgb_at(alloc: Global, bytes: &[u8]) -> Result<(RgbColor, &[u8]), EditError>
    ensures { Answers (map_ok (λ x. (x.0, x.1.now)) result) (rgb_at bytes.now) }
{
    let (red, rest) = read::<u8>(alloc, &(), bytes)?;
    let (green, rest) = read::<u8>(alloc, &(), rest)?;
    let (blue, rest) = read::<u8>(alloc, &(), rest)?;
    Ok((RgbColor::new(red, green, blue), rest))
}

#[tactic(auto, unfolding(crate::specs::laws::SettingReading::theme_at))]
pub(crate) fn theme_at(alloc: Global, bytes: &[u8]) -> Result<(Theme, &[u8]), EditError>
    ensures { Answers (map_ok (λ x. (x.0, x.1.now)) result) (theme_at bytes.now) }
{
    let (light1, rest) = read::<RgbPart>(alloc, &(), bytes)?;
    let (dark1, rest) = read::<RgbPart>(alloc, &(), rest)?;
    let (light2, rest) = read::<RgbPart>(alloc, &(), rest)?;
    let (dark2, rest) = read::<RgbPart>(alloc, &(), rest)?;
    let (accent1, rest) = read::<RgbPart>(alloc, &(), rest)?;
    let (accent2, rest) = read::<RgbPart>(alloc, &(), rest)?;
    let (accent3, rest) = read::<RgbPart>(alloc, &(), rest)?;
    let (accent4, rest) = read::<RgbPart>(alloc, &(), rest)?;
    let (accent5, rest) = read::<RgbPart>(alloc, &(), rest)?;
    let (accent6, rest) = read::<RgbPart>(alloc, &(), rest)?;
    let (hyperlink, rest) = read::<RgbPart>(alloc, &(), rest)?;
    let (followed_hyperlink, rest) = read::<RgbPart>(alloc, &(), rest)?;
    let theme = Theme {
        light1,
        dark1,
        light2,
        dark2,
        accent1,
        accent2,
        accent3,
        accent4,
        accent5,
        accent6,
        hyperlink,
        followed_hyperlink,
    };
    Ok((theme, rest))
}

fn locale_of(code: u8) -> Result<Locale, EditError>
    ensures { result ≡ ok_or ParseDiffs (locale_of_code code) }
{
    match Locale::from_code(code) {
        Some(locale) => Ok(locale),
        None => Err(EditError::ParseDiffs),
    }
}

#[tactic(auto, unfolding(crate::specs::laws::SettingReading::locale_at))]
pub(crate) fn locale_at(alloc: Global, bytes: &[u8]) -> Result<(Locale, &[u8]), EditError>
    ensures { Answers (map_ok (λ x. (x.0, x.1.now)) result) (locale_at bytes.now) }
{
    let (code, rest) = read::<u8>(alloc, &(), bytes)?;
    let locale = locale_of(code)?;
    Ok((locale, rest))
}

fn zone_of(code: u8) -> Result<Zone, EditError>
    ensures { result ≡ ok_or ParseDiffs (zone_of_code code) }
{
    match Zone::from_code(code) {
        Some(zone) => Ok(zone),
        None => Err(EditError::ParseDiffs),
    }
}

#[tactic(auto, unfolding(crate::specs::laws::SettingReading::zone_at))]
pub(crate) fn zone_at(alloc: Global, bytes: &[u8]) -> Result<(Zone, &[u8]), EditError>
    ensures { Answers (map_ok (λ x. (x.0, x.1.now)) result) (zone_at bytes.now) }
{
    let (code, rest) = read::<u8>(alloc, &(), bytes)?;
    let zone = zone_of(code)?;
    Ok((zone, rest))
}
