ghost use Rattle.std.specs.Prelude.{◌≡◌, IfOk, IsOkUnless, string_bytes};
ghost use Rattle.base_values.specs.Places.{IsPlace};
ghost use Rattle.base_values.specs.declared.EditError.TheVariants.{NoMemory};
ghost use Rattle.formula_tree.specs.Context.{context_place};
ghost use Rattle.formula_move.specs.Displace.{displaced, displaced_text};

use crate::displace_data::DisplaceData;
use crate::displacement::Displacement;
use base_tables::{Language, Locale};
use base_values::EditError;
use formula_print::to_localized_string;
use formula_tree::{CellReferenceRC, Node, move_node};
use std::alloc::Global;

/// The tree of a formula in the cell `context` once lines or cells are displaced, while the formula
/// stays in its cell. A corner on the displaced sheet goes along the displaced axis to where its line
/// goes, and any other corner stays, also one outside the sheet. Sheets are compared by folding their
/// names; a corner without a name is on the formula's own sheet. A range that is whole along the
/// displaced axis stays; where single cells are displaced, one that is whole along either axis stays.
/// A corner whose line is lost, leaves the sheet or is none of it is lost: a reference becomes
/// `#REF!`, and a range becomes `:` of `#REF!` and its other corner. The corners of ranges are put in
/// order again, with their `$` marks.
///
/// `NoMemory` is the only error.
#[tactic(auto, unfolding(crate::specs::Displace::displaced))]
pub fn displace_node(
    alloc: Global,
    node: &Node,
    context: &CellReferenceRC,
    displace_data: &DisplaceData<'_>,
) -> Result<Node, EditError>
    requires { IsPlace (context_place context.now) }
    ensures tree { IfOk result (λ tree. tree ≡ displaced context.now displace_data.now node.now) }
    ensures only { IsOkUnless result NoMemory }
{
    let place = context.place();
    let displacement = Displacement {
        own: context.sheet.as_str(),
        place,
        data: displace_data,
    };
    Ok(move_node(alloc, node, place, &displacement)?)
}

/// The text of that tree in a locale's signs and a language's words.
///
/// `NoMemory` is the only error.
#[tactic(auto, unfolding(crate::specs::Displace::displaced_text))]
pub fn to_string_displaced(
    alloc: Global,
    node: &Node,
    context: &CellReferenceRC,
    displace_data: &DisplaceData<'_>,
    locale: Locale,
    language: Language,
) -> Result<String, EditError>
    requires { IsPlace (context_place context.now) }
    ensures text { IfOk result (λ text. string_bytes text ≡ displaced_text context.now displace_data.now locale language node.now) }
    ensures only { IsOkUnless result NoMemory }
{
    let tree = displace_node(alloc, node, context, displace_data)?;
    to_localized_string(alloc, &tree, context, locale, language)
}
