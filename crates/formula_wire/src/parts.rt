//! Constants and parameters as parts of formats.

use crate::parts_reading::{item_at, parameter_at};
use base_decimal::Decimal;
use base_values::{EditError, Text};
use base_wire::{Part, boolean_code};
use formula_tree::{ArrayItem, Parameter};
use std::alloc::{AllocError, Global};

/// A constant of an array.
pub(crate) struct ConstantPart;

/// A parameter of a lambda.
pub(crate) struct ParameterPart;

impl Part for ConstantPart {
    ghost use Rattle.base_wire.specs.laws.Form.{Passes};
    ghost use Rattle.formula_wire.specs.Carried.{is_item};
    ghost use Rattle.formula_wire.specs.laws.CanonicalNumbers.{is_canonical_item};
    ghost use Rattle.formula_wire.specs.PartBytes.{encode_item};
    ghost use Rattle.formula_wire.specs.laws.Reading.{item_at};
    ghost use Rattle.formula_wire.specs.laws.PartLaws.{item_form, item_some};

    type Value = ArrayItem;

    type Context = ();

    ghost Known = { Passes is_canonical_item };

    ghost Fits = { Passes is_item };

    ghost encoding = { encode_item };

    ghost reading = { item_at };

    #[tactic(auto, using(crate::proofs::Fits::text_carried))]
    fn put(out: &mut Vec<u8>, value: &ArrayItem) -> Result<(), AllocError> {
        match value {
            ArrayItem::Boolean(truth) => out.extend_from_slice(&[0, boolean_code(*truth)])?,
            ArrayItem::Number(number) => {
                out.push(1)?;
                Decimal::put(out, number)?;
            }
            ArrayItem::Text(text) => {
                out.push(2)?;
                Text::put(out, text)?;
            }
            ArrayItem::Error(error) => out.extend_from_slice(&[3, error.code()])?,
        }
        Ok(())
    }

    fn take<'a>(
        alloc: Global,
        _context: &(),
        bytes: &'a [u8],
    ) -> Result<(ArrayItem, &'a [u8]), EditError> {
        item_at(alloc, bytes)
    }

    ghost format = { item_form };

    ghost some = { item_some };
}

impl Part for ParameterPart {
    ghost use Rattle.std.proofs.Common.{arith};
    ghost use Rattle.base_wire.specs.Encoding.{Any};
    ghost use Rattle.base_wire.specs.laws.Form.{Passes};
    ghost use Rattle.formula_wire.specs.Carried.{is_parameter};
    ghost use Rattle.formula_wire.specs.PartBytes.{encode_parameter};
    ghost use Rattle.formula_wire.specs.laws.Reading.{parameter_at};
    ghost use Rattle.formula_wire.specs.laws.PartLaws.{parameter_form};

    type Value = Parameter;

    type Context = ();

    ghost Known = { Any };

    ghost Fits = { Passes is_parameter };

    ghost encoding = { encode_parameter };

    ghost reading = { parameter_at };

    #[tactic(auto, using(crate::proofs::Fits::text_carried))]
    fn put(out: &mut Vec<u8>, value: &Parameter) -> Result<(), AllocError> {
        Text::put(out, &value.name)?;
        bool::put(out, &value.optional)
    }

    fn take<'a>(
        alloc: Global,
        _context: &(),
        bytes: &'a [u8],
    ) -> Result<(Parameter, &'a [u8]), EditError> {
        parameter_at(alloc, bytes)
    }

    ghost format = { parameter_form };

    ghost some = { λ x. Prim.omega arith };
}
