use base_maps::{IndexMap, SheetIndexMap, SheetPlaceMap};
use base_shared::Shared;
use base_values::Exact;
use format_rules::ConditionalFormatting;
use formula_tree::Node;

/// The trees and the conditional rules of a workbook that the opposite renaming of a sheet does not give
/// back. docs/MODEL.md has the rules.
#[derive(Clone, PartialEq, Eq, Drop)]
pub struct KeptTrees {
    /// Those of cells, by the ids of their sheets and their positions.
    pub formulas: SheetPlaceMap<Shared<Node>>,
    /// Those of defined names, by their places in the list.
    pub names: IndexMap<Shared<Node>>,
    /// Conditional rules, each whole, by the ids of their sheets and their places in the lists of these.
    pub formattings: SheetIndexMap<ConditionalFormatting>,
}

impl Exact for KeptTrees {
    ghost use Rattle.std.proofs.Common.{rules};
    ghost use Rattle.book_names.specs.laws.KeptTreesEquals.{kept_trees_equals};

    ghost copies = { λ a b h. Prim.search rules };

    ghost equals = { kept_trees_equals };
}
