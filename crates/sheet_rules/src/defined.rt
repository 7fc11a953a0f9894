//! Which defined names a workbook may have.

ghost use Rattle.std.specs.Prelude.{◌≡◌};
ghost use Rattle.std.specs.List.{list_all, list_any};
ghost use Rattle.cell_content.specs.Fitting.{tree_fits_at};
ghost use Rattle.defined_names.specs.declared.DefinedName.{DefinedName};
ghost use Rattle.defined_names.specs.Legal.{is_defined_name};
ghost use Rattle.defined_names.specs.Names.{is_same_name};
ghost use Rattle.sheet_rules.specs.Names.{first_place, have_name_trees, has_living_scope, are_names};
ghost use Rattle.sheet_rules.specs.WellFormed.{are_distinct, ids_of};

use crate::ids::is_taken as is_id_taken;
use base_values::Position;
use cell_content::tree_fits_at;
use defined_names::{DefinedName, is_defined_name};
use sheet_grid::Worksheet;

fn has_tree(name: &DefinedName) -> bool
    ensures { result ≡ tree_fits_at first_place name.now.formula }
{
    tree_fits_at(Position { row: 1, column: 1 }, name.formula.get())
}

/// Rule 6 of defined names: each tree may stand at A1.
#[tactic(auto, unfolding(crate::specs::Names::have_name_trees))]
pub(crate) fn have_name_trees(names: &[DefinedName]) -> bool
    ensures { result ≡ have_name_trees names.now }
{
    names.iter().all(has_tree)
}

fn is_legal(name: &DefinedName) -> bool
    ensures { result ≡ is_defined_name name.now.name }
{
    is_defined_name(name.name.as_str())
}

fn are_legal(names: &[DefinedName]) -> bool
    ensures { result ≡ list_all (λ (name : DefinedName). is_defined_name name.name) names.now }
{
    names.iter().all(is_legal)
}

fn is_taken(name: &DefinedName, others: &[DefinedName]) -> bool
    ensures { result ≡ list_any (is_same_name name.now) others.now }
{
    others.iter().any(|other| name.is_same_name(other))
}

/// Whether no two names are known in one place and equal by case folding.
fn are_distinct(names: &[DefinedName]) -> bool
    ensures { result ≡ are_distinct is_same_name names.now }
{
    let mut rest = names;
    while let Some((first, others)) = rest.split_first() {
        if is_taken(first, others) {
            return false;
        }
        rest = others;
    }
    true
}

fn has_living_scope(sheets: &[Worksheet], name: &DefinedName) -> bool
    ensures { result ≡ has_living_scope (ids_of sheets.now) name.now }
{
    match name.scope {
        Some(scope) => is_id_taken(scope, sheets),
        None => true,
    }
}

fn have_living_scopes(sheets: &[Worksheet], names: &[DefinedName]) -> bool
    ensures { result ≡ list_all (has_living_scope (ids_of sheets.now)) names.now }
{
    names.iter().all(|name| has_living_scope(sheets, name))
}

/// Rule 8: each name is legal, no two of one scope are equal by case folding, and the sheets where
/// they are known are there.
#[tactic(auto, unfolding(crate::specs::Names::are_names))]
pub(crate) fn are_names(sheets: &[Worksheet], names: &[DefinedName]) -> bool
    ensures { result ≡ are_names (ids_of sheets.now) names.now }
{
    are_legal(names) && are_distinct(names) && have_living_scopes(sheets, names)
}
