//! Defined names as parts of formats.

ghost use Rattle.base_values.specs.Answers.{Answers, map_ok};
ghost use Rattle.grid_wire.specs.laws.Reading.{name_at};

use base_shared::Shared;
use base_values::{EditError, Text};
use base_wire::{Part, read};
use defined_names::DefinedName;
use formula_wire::NodePart;
use std::alloc::{AllocError, Global};

#[tactic(auto, unfolding(crate::specs::laws::Reading::name_at, crate::specs::laws::Reading::scope_at))]
fn name_at(alloc: Global, bytes: &[u8]) -> Result<(DefinedName, &[u8]), EditError>
    ensures { Answers (map_ok (λ x. (x.0, x.1.now)) result) (name_at bytes.now) }
{
    let (name, rest) = read::<Text>(alloc, &(), bytes)?;
    let (scope, rest) = read::<Option<u32>>(alloc, &(), rest)?;
    let (formula, rest) = read::<Shared<NodePart>>(alloc, &(), rest)?;
    let name = DefinedName {
        name,
        scope,
        formula,
    };
    Ok((name, rest))
}

/// A defined name: the name, the id of the sheet where alone it is known, and what it stands for
/// (docs/FORMATS.md, "Bytes"). It may be any text: it is not asked whether it is legal.
pub struct NamePart;

impl Part for NamePart {
    ghost use Rattle.grid_wire.specs.NameBytes.{encode_name, FitsName, IsKnownName};
    ghost use Rattle.grid_wire.specs.laws.Reading.{name_at};
    ghost use Rattle.grid_wire.specs.laws.NameLaws.{name_format, name_some};

    type Value = DefinedName;

    type Context = ();

    ghost Known = { IsKnownName };

    ghost Fits = { FitsName };

    ghost encoding = { encode_name };

    ghost reading = { name_at };

    #[tactic(auto, using(base_wire::specs::laws::MapFits::any_option), unfolding(crate::specs::NameBytes::encode_name))]
    fn put(out: &mut Vec<u8>, value: &DefinedName) -> Result<(), AllocError> {
        Text::put(out, &value.name)?;
        Option::<u32>::put(out, &value.scope)?;
        Shared::<NodePart>::put(out, &value.formula)
    }

    fn take<'a>(
        alloc: Global,
        _context: &(),
        bytes: &'a [u8],
    ) -> Result<(DefinedName, &'a [u8]), EditError> {
        name_at(alloc, bytes)
    }

    ghost format = { name_format };

    ghost some = { name_some };
}
