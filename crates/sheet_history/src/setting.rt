//! The settings of a workbook, and their changes.

ghost use Rattle.std.specs.Prelude.{◌≡◌, Ok, OnOk};
ghost use Rattle.base_values.specs.Answers.{Edits};
ghost use Rattle.sheet_lines.specs.Sheets.{IsPlacedBook};
ghost use Rattle.sheet_history.specs.Settings.{new_setting, old_setting, with_setting};

use base_styles::Theme;
use base_tables::{Locale, Zone};
use base_values::{EditError, Exact, Text};
use sheet_grid::Workbook;

/// What a setting of a workbook is.
#[derive(Clone, PartialEq, Eq, Drop)]
pub enum Setting {
    /// The colours that its styles name.
    Theme(Theme),
    /// Its name.
    Name(Text),
    /// The locale in which its numbers and lists are written.
    Locale(Locale),
    /// Its time zone.
    Zone(Zone),
}

/// A change of a setting of a workbook.
#[derive(Clone, PartialEq, Eq, Drop)]
pub enum SettingChange {
    Theme { old: Theme, new: Theme },
    Name { old: Text, new: Text },
    Locale { old: Locale, new: Locale },
    Zone { old: Zone, new: Zone },
}

/// Puts what a setting becomes.
fn put_new(workbook: &mut Workbook, change: &SettingChange) -> Result<(), EditError>
    ensures { Edits result workbook.old workbook.new (Ok (with_setting (new_setting change.now) workbook.old)) }
{
    match change {
        SettingChange::Theme { old: _, new } => {
            workbook.set_theme(new);
            Ok(())
        }
        SettingChange::Name { old: _, new } => workbook.set_name(new.as_str()),
        SettingChange::Locale { old: _, new } => {
            workbook.set_locale(*new);
            Ok(())
        }
        SettingChange::Zone { old: _, new } => {
            workbook.set_zone(*new);
            Ok(())
        }
    }
}

/// Puts what a setting was.
fn put_old(workbook: &mut Workbook, change: &SettingChange) -> Result<(), EditError>
    ensures { Edits result workbook.old workbook.new (Ok (with_setting (old_setting change.now) workbook.old)) }
{
    match change {
        SettingChange::Theme { old, new: _ } => {
            workbook.set_theme(old);
            Ok(())
        }
        SettingChange::Name { old, new: _ } => workbook.set_name(old.as_str()),
        SettingChange::Locale { old, new: _ } => {
            workbook.set_locale(*old);
            Ok(())
        }
        SettingChange::Zone { old, new: _ } => {
            workbook.set_zone(*old);
            Ok(())
        }
    }
}

/// Makes a change of a setting. `NoMemory` alone is an error.
pub(crate) fn setting_forward(
    workbook: &mut Workbook,
    change: &SettingChange,
) -> Result<(), EditError>
    requires { IsPlacedBook workbook.old }
    ensures edits { Edits result workbook.old workbook.new (Ok (with_setting (new_setting change.now) workbook.old)) }
    ensures placed { OnOk result (IsPlacedBook workbook.new) }
{
    put_new(workbook, change)
}

/// Takes a change of a setting back. `NoMemory` alone is an error.
pub(crate) fn setting_back(workbook: &mut Workbook, change: &SettingChange) -> Result<(), EditError>
    requires { IsPlacedBook workbook.old }
    ensures edits { Edits result workbook.old workbook.new (Ok (with_setting (old_setting change.now) workbook.old)) }
    ensures placed { OnOk result (IsPlacedBook workbook.new) }
{
    put_old(workbook, change)
}

impl Exact for Setting {
    ghost use Rattle.std.proofs.Common.{rules};
    ghost use Rattle.sheet_history.specs.laws.SettingEquals.{setting_equals};

    ghost copies = { λ a b h. Prim.search rules };

    ghost equals = { setting_equals };
}

impl Exact for SettingChange {
    ghost use Rattle.std.proofs.Common.{rules};
    ghost use Rattle.sheet_history.specs.laws.SettingEquals.{setting_change_equals};

    ghost copies = { λ a b h. Prim.search rules };

    ghost equals = { setting_change_equals };
}
