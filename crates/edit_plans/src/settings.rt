//! Settings of a workbook that get a value: its theme, its name, its locale and its time zone.

ghost use Rattle.std.specs.Prelude.{◌≡◌, [], IfOk, IfSome, IsOkUnless};
ghost use Rattle.std.specs.List.{cons_option};
ghost use Rattle.base_values.specs.declared.EditError.TheVariants.{NoMemory};
ghost use Rattle.sheet_rules.specs.WellFormed.{IsWellFormed};
ghost use Rattle.sheet_history.specs.Diffs.{IsCanonicalDiff, IsCanonicalList};
ghost use Rattle.sheet_history.specs.Settings.{change_to};
ghost use Rattle.sheet_history.specs.declared.Setting.TheVariants as value;
ghost use Rattle.edit_plans.specs.Edits.Edit.{SetSetting};
ghost use Rattle.edit_plans.specs.Plans.{PlansSheets};
ghost use Rattle.edit_plans.specs.SettingEdits.{has_setting, setting_record};

use crate::list_of_two;
use base_values::{EditError, Text};
use sheet_grid::Workbook;
use sheet_history::{Diff, DiffList, Setting, SettingChange};
use std::alloc::Global;

/// Whether a workbook has a setting already.
fn has_setting(workbook: &Workbook, setting: &Setting) -> bool
    ensures { result ≡ has_setting setting.now workbook.now }
{
    match setting {
        Setting::Theme(theme) => workbook.theme() == *theme,
        Setting::Name(name) => workbook.name() == name.as_str(),
        Setting::Locale(locale) => workbook.locale() == *locale,
        Setting::Zone(zone) => workbook.zone() == *zone,
    }
}

/// The change of a workbook that gets a setting.
fn change_to(workbook: &Workbook, setting: Setting) -> Result<SettingChange, EditError>
    ensures output { IfOk result (λ change. change ≡ change_to setting workbook.now) }
    ensures only { IsOkUnless result NoMemory }
{
    match setting {
        Setting::Theme(new) => Ok(SettingChange::Theme {
            old: workbook.theme(),
            new,
        }),
        Setting::Name(new) => Ok(SettingChange::Name {
            old: Text::new(String::from_str(new.allocator(), workbook.name())?),
            new,
        }),
        Setting::Locale(new) => Ok(SettingChange::Locale {
            old: workbook.locale(),
            new,
        }),
        Setting::Zone(new) => Ok(SettingChange::Zone {
            old: workbook.zone(),
            new,
        }),
    }
}

/// The diff of a setting that a workbook gets, or none where it stays.
fn setting_diff(workbook: &Workbook, setting: Setting) -> Result<Option<Diff>, EditError>
    ensures output { IfOk result (λ diff. cons_option diff [] ≡ setting_record setting workbook.now) }
    ensures canonical { IfOk result (λ diff. IfSome diff IsCanonicalDiff) }
    ensures only { IsOkUnless result NoMemory }
{
    if has_setting(workbook, &setting) {
        return Ok(None);
    }
    let change = change_to(workbook, setting)?;
    Ok(Some(Diff::Setting { change }))
}

/// The record of a setting that a workbook gets.
fn setting_list(alloc: Global, workbook: &Workbook, setting: Setting) -> Result<DiffList, EditError>
    ensures output { IfOk result (λ list. list ≡ setting_record setting workbook.now) }
    ensures canonical { IfOk result IsCanonicalList }
    ensures only { IsOkUnless result NoMemory }
{
    let diff = setting_diff(workbook, setting)?;
    list_of_two(alloc, diff, None)
}

/// The record of a name that a workbook gets.
fn title_list(alloc: Global, workbook: &Workbook, name: &str) -> Result<DiffList, EditError>
    ensures output { IfOk result (λ list. list ≡ setting_record (value.Name name.now) workbook.now) }
    ensures canonical { IfOk result IsCanonicalList }
    ensures only { IsOkUnless result NoMemory }
{
    let name = Text::new(String::from_str(alloc, name)?);
    setting_list(alloc, workbook, Setting::Name(name))
}

/// The record of a name that a workbook gets: its change, or nothing where it stays. Nothing is changed.
/// `NoMemory` alone is an error.
pub fn plan_title(alloc: Global, workbook: &Workbook, name: &str) -> Result<DiffList, EditError>
    requires rules { IsWellFormed workbook.now }
    ensures planned { PlansSheets (SetSetting (value.Name name.now)) result workbook.now }
{
    title_list(alloc, workbook, name)
}

/// The record of a setting that a workbook gets: its change, or nothing where it stays. Nothing is
/// changed. `NoMemory` alone is an error.
pub fn plan_setting(
    alloc: Global,
    workbook: &Workbook,
    setting: Setting,
) -> Result<DiffList, EditError>
    requires rules { IsWellFormed workbook.now }
    ensures planned { PlansSheets (SetSetting setting) result workbook.now }
{
    setting_list(alloc, workbook, setting)
}
