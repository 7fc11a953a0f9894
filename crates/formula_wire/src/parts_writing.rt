//! Corners, arrays, parameters and nodes without children at the end of bytes. Those of Rust's own types
//! fit, where their numbers are canonical.

ghost use Rattle.std.specs.Prelude.{◌≡◌, ◌∷◌, ◌++◌, ◌&&◌, true, OnOk};
ghost use Rattle.std.specs.List.{list_all};
ghost use Rattle.base_wire.specs.Parts.{encode_decimal};
ghost use Rattle.base_wire.specs.Encoding.{encode_text};
ghost use Rattle.base_wire.specs.Forms.{if_passes, is_list, is_text};
ghost use Rattle.formula_wire.specs.Carried.{is_corner, is_item, is_parameter};
ghost use Rattle.formula_wire.specs.laws.CanonicalNumbers.{is_canonical_item};
ghost use Rattle.formula_wire.specs.PartBytes.{encode_corner, encode_lines, encode_parameters, encode_sheet};

use crate::parts::{ConstantPart, ParameterPart};
use base_decimal::Decimal;
use base_shared::Shared;
use base_values::{Items, Text};
use base_wire::{Part, boolean_code, put_items};
use formula_tree::{ArrayItem, Corner, Parameter};
use std::alloc::AllocError;

/// Adds a tag and a text.
#[tactic(auto, using(crate::proofs::Fits::text_carried, crate::proofs::Joins::pieces))]
pub(crate) fn push_tagged_text(out: &mut Vec<u8>, tag: u8, text: &Text) -> Result<(), AllocError>
    ensures encoded { OnOk result (out.new.items ≡ out.old.items ++ tag ∷ encode_text text.now) }
    ensures carried { OnOk result (is_text text.now ≡ true) }
{
    out.push(tag)?;
    Text::put(out, text)?;
    Ok(())
}

#[tactic(auto, using(crate::proofs::Fits::corner_carried), unfolding(crate::specs::PartBytes::encode_corner))]
fn push_corner(out: &mut Vec<u8>, corner: Corner) -> Result<(), AllocError>
    ensures encoded { OnOk result (out.new.items ≡ out.old.items ++ encode_corner corner) }
    ensures carried { OnOk result (is_corner corner ≡ true) }
{
    out.push(boolean_code(corner.absolute_row))?;
    out.extend_from_slice(&corner.row.to_be_bytes())?;
    out.push(boolean_code(corner.absolute_column))?;
    out.extend_from_slice(&corner.column.to_be_bytes())
}

fn push_sheet(out: &mut Vec<u8>, sheet: &Option<Shared<Text>>) -> Result<(), AllocError>
    ensures encoded { OnOk result (out.new.items ≡ out.old.items ++ encode_sheet sheet.now) }
    ensures carried { OnOk result (if_passes is_text sheet.now ≡ true) }
{
    match sheet {
        None => out.extend_from_slice(&[0]),
        Some(name) => push_tagged_text(out, 1, name.get()),
    }
}

pub(crate) fn push_number(out: &mut Vec<u8>, number: Decimal) -> Result<(), AllocError>
    ensures { OnOk result (out.new.items ≡ out.old.items ++ 1 ∷ encode_decimal number) }
{
    out.push(1)?;
    Decimal::put(out, &number)
}

#[tactic(auto, using(crate::proofs::Joins::pieces))]
pub(crate) fn push_reference(
    out: &mut Vec<u8>,
    sheet: &Option<Shared<Text>>,
    corner: Corner,
) -> Result<(), AllocError>
    ensures encoded { OnOk result (out.new.items ≡ out.old.items ++ 3 ∷ (encode_sheet sheet.now ++ encode_corner corner)) }
    ensures carried { OnOk result (if_passes is_text sheet.now && is_corner corner ≡ true) }
{
    out.push(3)?;
    push_sheet(out, sheet)?;
    push_corner(out, corner)?;
    Ok(())
}

#[tactic(auto, using(crate::proofs::Joins::pieces))]
pub(crate) fn push_range(
    out: &mut Vec<u8>,
    sheet: &Option<Shared<Text>>,
    first: Corner,
    second: Corner,
) -> Result<(), AllocError>
    ensures encoded { OnOk result (out.new.items ≡ out.old.items ++ 4 ∷ (encode_sheet sheet.now ++ (encode_corner first ++ encode_corner second))) }
    ensures carried { OnOk result (if_passes is_text sheet.now && (is_corner first && is_corner second) ≡ true) }
{
    out.push(4)?;
    push_sheet(out, sheet)?;
    push_corner(out, first)?;
    push_corner(out, second)?;
    Ok(())
}

#[tactic(auto, using(crate::proofs::Fits::lines_carried, crate::proofs::Joins::pieces))]
pub(crate) fn push_array(
    out: &mut Vec<u8>,
    lines: &Items<Items<ArrayItem>>,
) -> Result<(), AllocError>
    ensures encoded { OnOk result (out.new.items ≡ out.old.items ++ 14 ∷ encode_lines lines.now) }
    ensures carried { OnOk result (is_list (is_list is_item) lines.now ≡ list_all (list_all is_canonical_item) lines.now) }
{
    out.push(14)?;
    put_items::<Items<ConstantPart>>(out, lines.as_slice())?;
    Ok(())
}

/// Adds the tag of a lambda, and its parameters.
#[tactic(auto, using(crate::proofs::Fits::parameters_carried, crate::proofs::Joins::pieces))]
pub(crate) fn push_parameters(
    out: &mut Vec<u8>,
    parameters: &Items<Parameter>,
) -> Result<(), AllocError>
    ensures encoded { OnOk result (out.new.items ≡ out.old.items ++ 20 ∷ encode_parameters parameters.now) }
    ensures carried { OnOk result (is_list is_parameter parameters.now ≡ true) }
{
    out.push(20)?;
    put_items::<ParameterPart>(out, parameters.as_slice())?;
    Ok(())
}
