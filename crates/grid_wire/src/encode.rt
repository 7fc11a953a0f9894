//! The bytes of workbooks, of styles and of rules.

ghost use Rattle.std.specs.Prelude.{◌≡◌, ◌++◌, OnOk, IfOk, IsOkUnless};
ghost use Rattle.base_values.specs.declared.EditError.TheVariants.{NoMemory};
ghost use Rattle.base_wire.specs.Encoding.{encode_list, FitsItems, FitsText};
ghost use Rattle.grid_wire.specs.BookBytes.{encode_settings, IsBook, IsKnownBook};
ghost use Rattle.grid_wire.specs.NameBytes.{encode_names, FitsNames};
ghost use Rattle.grid_wire.specs.RuleBytes.{encode_rule};
ghost use Rattle.grid_wire.specs.SheetBytes.{encode_sheet, FitsSheet};
ghost use Rattle.grid_wire.specs.StyleBytes.{encode_style};
ghost use Rattle.grid_wire.specs.ThemeBytes.{FitsTheme};

use crate::names_list::NameListPart;
use crate::setting_parts::{LocalePart, ThemePart, ZonePart};
use crate::sheets::SheetPart;
use crate::writing_cells::put_style;
use crate::writing_rules::put_rule;
use crate::writing_sheets::put_text;
use base_styles::Style;
use base_values::EditError;
use base_wire::{Part, put_items};
use format_rules::CfRule;
use sheet_grid::Workbook;
use std::alloc::{AllocError, Global};

/// Adds the name, the locale, the time zone and the theme.
fn put_settings(out: &mut Vec<u8>, workbook: &Workbook) -> Result<(), AllocError>
    ensures encoded { OnOk result (out.new.items ≡ out.old.items ++ encode_settings workbook.now) }
    ensures name { OnOk result (FitsText workbook.now.name) }
    ensures theme { OnOk result (FitsTheme workbook.now.theme) }
{
    put_text(out, workbook.name())?;
    LocalePart::put(out, &workbook.locale())?;
    ZonePart::put(out, &workbook.zone())?;
    ThemePart::put(out, &workbook.theme())
}

/// Adds the defined names and the sheets.
fn put_contents(out: &mut Vec<u8>, workbook: &Workbook) -> Result<(), AllocError>
    ensures encoded { OnOk result (out.new.items ≡ out.old.items ++ (encode_names workbook.now.names ++ encode_list encode_sheet workbook.now.worksheets)) }
    ensures names { OnOk result (IsKnownBook workbook.now → FitsNames workbook.now.names) }
    ensures sheets { OnOk result (IsKnownBook workbook.now → FitsItems FitsSheet workbook.now.worksheets) }
{
    NameListPart::put(out, workbook.name_list())?;
    put_items::<SheetPart>(out, workbook.worksheets())
}

/// The bytes of a workbook whose formulas are at most 64 deep, and whose lines have something of their
/// own, as all that meet the rules have. They can be read again as the workbook (docs/FORMATS.md,
/// "Bytes"). Refuses with `NoMemory` alone.
#[tactic(auto, unfolding(crate::specs::BookBytes::encode_book))]
pub fn encode_workbook(alloc: Global, workbook: &Workbook) -> Result<Vec<u8>, EditError>
    requires known { IsKnownBook workbook.now }
    ensures encoded { IfOk result (λ bytes. IsBook bytes.items workbook.now) }
    ensures only { IsOkUnless result NoMemory }
{
    let mut out = Vec::from_slice(alloc, b"ICW1")?;
    put_settings(&mut out, workbook)?;
    put_contents(&mut out, workbook)?;
    Ok(out)
}

/// The bytes of a style. Refuses with `NoMemory` alone.
pub fn encode_style(alloc: Global, style: &Style) -> Result<Vec<u8>, EditError>
    ensures encoded { IfOk result (λ bytes. bytes.items ≡ encode_style style.now) }
    ensures only { IsOkUnless result NoMemory }
{
    let mut out = Vec::new(alloc);
    put_style(&mut out, style)?;
    Ok(out)
}

/// The bytes of a rule. Refuses with `NoMemory` alone.
pub fn encode_rule(alloc: Global, rule: &CfRule) -> Result<Vec<u8>, EditError>
    ensures encoded { IfOk result (λ bytes. bytes.items ≡ encode_rule rule.now) }
    ensures only { IsOkUnless result NoMemory }
{
    let mut out = Vec::new(alloc);
    put_rule(&mut out, rule)?;
    Ok(out)
}
