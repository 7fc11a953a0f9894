//! Changes of the settings of a workbook, from their bytes and as bytes.

ghost use Rattle.std.specs.Prelude.{◌≡◌, ◌++◌, OnOk};
ghost use Rattle.base_values.specs.Answers.{Answers, map_ok};
ghost use Rattle.sheet_history.specs.declared.Diff.TheVariants.{Setting as SettingDiff};
ghost use Rattle.sheet_wire.specs.QueueBytes.{encode_diff};
ghost use Rattle.sheet_wire.specs.laws.Reading.{locale_diff_at, theme_diff_at, title_diff_at, zone_diff_at, pair_at};
ghost use Rattle.sheet_wire.specs.SettingBytes.{encode_twice, FitsSetting};

use base_values::{EditError, Text};
use base_wire::{Part, read};
use grid_wire::{LocalePart, ThemePart, ZonePart};
use sheet_history::{Diff, SettingChange};
use std::alloc::{AllocError, Global};

/// Adds what a setting was and what it is.
fn put_twice<P: Part>(out: &mut Vec<u8>, old: &P::Value, new: &P::Value) -> Result<(), AllocError>
    ensures encoded { OnOk result (out.new.items ≡ out.old.items ++ encode_twice P.encoding old.now new.now) }
    ensures fits { OnOk result (P.Known old.now → P.Known new.now → P.Fits old.now × P.Fits new.now) }
{
    P::put(out, old)?;
    P::put(out, new)
}

/// Adds a change of a setting, behind the tag of the setting.
pub(crate) fn put_setting(out: &mut Vec<u8>, change: &SettingChange) -> Result<(), AllocError>
    ensures encoded { OnOk result (out.new.items ≡ out.old.items ++ encode_diff (SettingDiff change.now)) }
    ensures fits { OnOk result (FitsSetting change.now) }
{
    match change {
        SettingChange::Theme { old, new } => {
            out.push(18)?;
            put_twice::<ThemePart>(out, old, new)
        }
        SettingChange::Name { old, new } => {
            out.push(19)?;
            put_twice::<Text>(out, old, new)
        }
        SettingChange::Locale { old, new } => {
            out.push(20)?;
            put_twice::<LocalePart>(out, old, new)
        }
        SettingChange::Zone { old, new } => {
            out.push(21)?;
            put_twice::<ZonePart>(out, old, new)
        }
    }
}

/// What a setting was and what it is.
fn pair_at<'a, P: Part>(
    alloc: Global,
    context: &P::Context,
    bytes: &'a [u8],
) -> Result<((P::Value, P::Value), &'a [u8]), EditError>
    ensures { Answers (map_ok (λ x. ((x.0.0, x.0.1), x.1.now)) result) (pair_at P.reading bytes.now) }
{
    let (old, rest) = read::<P>(alloc, context, bytes)?;
    let (new, rest) = read::<P>(alloc, context, rest)?;
    Ok(((old, new), rest))
}

#[tactic(auto, unfolding(crate::specs::laws::Reading::theme_diff_at))]
pub(crate) fn theme_diff_at(alloc: Global, bytes: &[u8]) -> Result<(Diff, &[u8]), EditError>
    ensures { Answers (map_ok (λ x. (x.0, x.1.now)) result) (theme_diff_at bytes.now) }
{
    let ((old, new), rest) = pair_at::<ThemePart>(alloc, &(), bytes)?;
    let change = SettingChange::Theme { old, new };
    Ok((Diff::Setting { change }, rest))
}

#[tactic(auto, unfolding(crate::specs::laws::Reading::title_diff_at))]
pub(crate) fn title_diff_at(alloc: Global, bytes: &[u8]) -> Result<(Diff, &[u8]), EditError>
    ensures { Answers (map_ok (λ x. (x.0, x.1.now)) result) (title_diff_at bytes.now) }
{
    let ((old, new), rest) = pair_at::<Text>(alloc, &(), bytes)?;
    let change = SettingChange::Name { old, new };
    Ok((Diff::Setting { change }, rest))
}

#[tactic(auto, unfolding(crate::specs::laws::Reading::locale_diff_at))]
pub(crate) fn locale_diff_at(alloc: Global, bytes: &[u8]) -> Result<(Diff, &[u8]), EditError>
    ensures { Answers (map_ok (λ x. (x.0, x.1.now)) result) (locale_diff_at bytes.now) }
{
    let ((old, new), rest) = pair_at::<LocalePart>(alloc, &(), bytes)?;
    let change = SettingChange::Locale { old, new };
    Ok((Diff::Setting { change }, rest))
}

#[tactic(auto, unfolding(crate::specs::laws::Reading::zone_diff_at))]
pub(crate) fn zone_diff_at(alloc: Global, bytes: &[u8]) -> Result<(Diff, &[u8]), EditError>
    ensures { Answers (map_ok (λ x. (x.0, x.1.now)) result) (zone_diff_at bytes.now) }
{
    let ((old, new), rest) = pair_at::<ZonePart>(alloc, &(), bytes)?;
    let change = SettingChange::Zone { old, new };
    Ok((Diff::Setting { change }, rest))
}
