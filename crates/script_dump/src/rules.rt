//! The lines of a sheet's conditional rules.

ghost use Rattle.std.specs.Prelude.{◌≡◌, ◌++◌, ◌∷◌, [], codes, decimal, OnOk, IsOkUnless};
ghost use Rattle.std.specs.List.{flat_map};
ghost use Rattle.base_values.specs.declared.error.EditError.TheVariants.{NoMemory};
ghost use Rattle.grid_wire.specs.RuleBytes.{encode_rule};
ghost use Rattle.script_dump.specs.Text.{hex};
ghost use Rattle.script_dump.specs.Dump.{areas_text, later_area, rule_line};

use crate::merges::push_area;
use crate::text::{push_hex, push_unsigned};
use base_axis::MergedCell;
use base_values::EditError;
use format_rules::{CfRule, ConditionalFormatting};
use grid_wire::encode_rule;
use sheet_grid::Worksheet;
use std::alloc::{AllocError, Global};

/// Writes the name of a rectangle behind a comma.
fn push_later_area(alloc: Global, out: &mut Vec<u8>, area: MergedCell) -> Result<(), AllocError>
    ensures { OnOk result (out.new.items ≡ out.old.items ++ later_area area) }
{
    out.extend_from_slice(b",")?;
    push_area(alloc, out, area)
}

/// Writes the names of rectangles, each behind a comma.
fn push_later_areas(
    alloc: Global,
    out: &mut Vec<u8>,
    areas: &[MergedCell],
) -> Result<(), AllocError>
    ensures { OnOk result (out.new.items ≡ out.old.items ++ flat_map later_area areas.now) }
{
    for area in areas {
        push_later_area(alloc, out, *area)?;
    }
    Ok(())
}

/// Writes the names of rectangles, parted by commas.
fn push_areas(alloc: Global, out: &mut Vec<u8>, areas: &[MergedCell]) -> Result<(), AllocError>
    ensures { OnOk result (out.new.items ≡ out.old.items ++ areas_text areas.now) }
{
    match areas {
        [first, later @ ..] => {
            push_area(alloc, out, *first)?;
            push_later_areas(alloc, out, later)
        }
        [] => Ok(()),
    }
}

/// Writes the word for a rule, its priority and its parts, each with a space.
fn push_rule_front(
    alloc: Global,
    out: &mut Vec<u8>,
    formatting: &ConditionalFormatting,
) -> Result<(), AllocError>
    ensures { OnOk result (out.new.items ≡ out.old.items
        ++ (codes "rule " ++ (decimal formatting.now.priority ++ 32 ∷ (areas_text formatting.now.parts ++ 32 ∷ [])))) }
{
    out.extend_from_slice(b"rule ")?;
    push_unsigned(alloc, out, formatting.priority)?;
    out.push(b' ')?;
    push_areas(alloc, out, formatting.parts.as_slice())?;
    out.push(b' ')?;
    Ok(())
}

/// Writes the bytes of a rule in hexadecimal.
fn push_rule_bytes(alloc: Global, out: &mut Vec<u8>, rule: &CfRule) -> Result<(), EditError>
    ensures text { OnOk result (out.new.items ≡ out.old.items ++ hex (encode_rule rule.now)) }
    ensures memory { IsOkUnless result NoMemory }
{
    let bytes = encode_rule(alloc, rule)?;
    push_hex(out, bytes.as_slice())?;
    Ok(())
}

fn push_rule(
    alloc: Global,
    out: &mut Vec<u8>,
    formatting: &ConditionalFormatting,
) -> Result<(), EditError>
    ensures text { OnOk result (out.new.items ≡ out.old.items ++ rule_line formatting.now) }
    ensures memory { IsOkUnless result NoMemory }
{
    push_rule_front(alloc, out, formatting)?;
    push_rule_bytes(alloc, out, &formatting.rule)?;
    out.push(b'\n')?;
    Ok(())
}

/// Writes the lines of a sheet's conditional rules.
pub(crate) fn push_rules(
    alloc: Global,
    out: &mut Vec<u8>,
    sheet: &Worksheet,
) -> Result<(), EditError>
    ensures text { OnOk result (out.new.items ≡ out.old.items ++ flat_map rule_line sheet.now.formattings) }
    ensures memory { IsOkUnless result NoMemory }
{
    for formatting in sheet.conditional_formatting().as_slice() {
        push_rule(alloc, out, formatting)?;
    }
    Ok(())
}
