use crate::field::FieldChange;
use crate::setting::SettingChange;
use base_axis::MergeList;
use base_shared::Shared;
use base_values::{Exact, Items, Position, Text};
use book_names::KeptTrees;
use book_sheets::KeptSheet;
use line_map::EditKind;
use name_edits::NameChange;
use rule_edits::RuleChange;
use sheet_grid::{Cell, LineAttr, Link};
use sheet_lines::KeptLines;

/// The direction of a sheet whose lines are edited.
#[derive(Clone, Copy, Debug, PartialEq, Eq)]
pub enum LineAxis {
    Rows,
    Columns,
}

/// One change of a workbook, which can be made again and taken back.
#[derive(Clone, PartialEq, Eq, Drop)]
pub enum Diff {
    /// The cell at a position of the sheet with that id. None stands for no cell.
    Cell {
        sheet: u32,
        position: Position,
        old: Option<Shared<Cell>>,
        new: Option<Shared<Cell>>,
    },
    /// The link at a position of the sheet with that id. None stands for no link.
    Link {
        sheet: u32,
        position: Position,
        old: Option<Link>,
        new: Option<Link>,
    },
    /// The merges of the sheet with that id, in their order.
    Merges {
        sheet: u32,
        old: MergeList,
        new: MergeList,
    },
    /// A field of the sheet with that id.
    Field {
        sheet: u32,
        change: FieldChange,
    },
    /// What a row or a column of the sheet with that id has of its own. None stands for nothing.
    Attributes {
        sheet: u32,
        axis: LineAxis,
        line: i32,
        old: Option<LineAttr>,
        new: Option<LineAttr>,
    },
    /// A conditional rule of the sheet with that id that came, went or changed.
    Rule {
        sheet: u32,
        change: Shared<RuleChange>,
    },
    /// Lines along an axis that were inserted in the sheet with that id, deleted from it or moved,
    /// and what the opposite edit does not give back.
    Lines {
        sheet: u32,
        axis: LineAxis,
        edit: EditKind,
        kept: Shared<KeptLines>,
    },
    /// An empty sheet of that id and name, which came at an index.
    NewSheet {
        sheet: u32,
        index: u32,
        name: Text,
    },
    /// A copy, of that id and name, of the sheet of another id, which came at an index.
    DuplicateSheet {
        source: u32,
        sheet: u32,
        index: u32,
        name: Text,
    },
    /// A sheet that went from an index, with the names that were known in it alone.
    DeleteSheet {
        index: u32,
        kept: Shared<KeptSheet>,
    },
    /// The sheet of that id, which was taken from an index to another one.
    MoveSheet {
        sheet: u32,
        from: u32,
        to: u32,
    },
    /// The sheet of that id, which got a new name in place of the old one, and the trees that the
    /// opposite renaming does not give back.
    RenameSheet {
        sheet: u32,
        old: Text,
        new: Text,
        kept: Shared<KeptTrees>,
    },
    /// A defined name that came, went or changed, and the trees that taking this back does not give.
    ChangeName {
        change: NameChange,
        kept: Shared<KeptTrees>,
    },
    /// A setting of the workbook.
    Setting {
        change: SettingChange,
    },
}

/// The record of one edit: the changes that it made. A copy takes no memory.
pub type DiffList = Shared<Items<Diff>>;

/// In which direction a sent list of diffs is to be followed.
#[derive(Clone, Copy, Debug, PartialEq, Eq)]
pub enum DiffType {
    /// The old values are put back, from the last diff to the first.
    Undo,
    /// The new values are put, from the first diff to the last.
    Redo,
}

/// A list of diffs as it is sent to other copies.
#[derive(Clone, PartialEq, Eq, Drop)]
pub struct QueueDiffs {
    pub kind: DiffType,
    pub list: DiffList,
}

impl Exact for Diff {
    ghost use Rattle.std.proofs.Common.{rules};
    ghost use Rattle.sheet_history.specs.laws.DiffEquals.{diff_equals};

    ghost copies = { λ a b h. Prim.search rules };

    ghost equals = { diff_equals };
}

impl Exact for LineAxis {
    ghost use Rattle.std.proofs.Common.{rules};
    ghost use Rattle.sheet_history.specs.laws.DiffEquals.{line_axis_equals};

    ghost copies = { λ a b h. Prim.search rules };

    ghost equals = { line_axis_equals };
}

impl Exact for DiffType {
    ghost use Rattle.std.proofs.Common.{rules};
    ghost use Rattle.sheet_history.specs.laws.DiffEquals.{diff_type_equals};

    ghost copies = { λ a b h. Prim.search rules };

    ghost equals = { diff_type_equals };
}

impl Exact for QueueDiffs {
    ghost use Rattle.std.proofs.Common.{rules};
    ghost use Rattle.sheet_history.specs.laws.DiffEquals.{queue_diffs_equals};

    ghost copies = { λ a b h. Prim.search rules };

    ghost equals = { queue_diffs_equals };
}
