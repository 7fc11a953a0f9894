ghost use Rattle.std.specs.Prelude.{◌≡◌};
ghost use Rattle.sheet_lines.specs.Parts.{only_lost};

use base_axis::MergeList;
use base_maps::{IndexMap, NumberMap, PositionMap, SheetPlaceMap};
use base_shared::Shared;
use base_values::Exact;
use format_rules::ConditionalFormatting;
use formula_tree::Node;
use sheet_grid::{Cell, LineAttr, Link};
use std::alloc::Global;

/// What taking a line edit back does not give of a workbook. docs/MODEL.md has the rules.
#[derive(Clone, PartialEq, Eq, Drop)]
pub struct KeptLines {
    /// The cells of the edited sheet that are lost, by their positions before the edit.
    pub cells: PositionMap<Shared<Cell>>,
    /// Its links that are lost, by their positions before the edit.
    pub links: PositionMap<Link>,
    /// What its lost lines of the edited axis had of their own, by their numbers before the edit.
    pub lines: NumberMap<LineAttr>,
    /// The trees of the other formulas that do not come back, by the ids of their sheets and their
    /// positions before the edit.
    pub formulas: SheetPlaceMap<Shared<Node>>,
    /// The merges of the edited sheet, where they do not come back.
    pub merges: Option<MergeList>,
    /// Its conditional rules that do not come back, each whole, by their indexes in the list of the
    /// sheet's rules.
    pub formattings: IndexMap<ConditionalFormatting>,
}

impl KeptLines {
    /// Lost cells, and nothing else.
    pub(crate) fn of_cells(alloc: Global, cells: PositionMap<Shared<Cell>>) -> KeptLines
        ensures { result ≡ only_lost cells }
    {
        KeptLines {
            cells,
            links: PositionMap::new(alloc),
            lines: NumberMap::new(alloc),
            formulas: SheetPlaceMap::new(alloc),
            merges: None,
            formattings: IndexMap::new(alloc),
        }
    }
}

impl Exact for KeptLines {
    ghost use Rattle.std.proofs.Common.{rules};
    ghost use Rattle.sheet_lines.specs.laws.KeptEquals.{kept_equals};

    ghost copies = { λ a b h. Prim.search rules };

    ghost equals = { kept_equals };
}
