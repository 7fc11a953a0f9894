ghost use Rattle.std.specs.Prelude.{◌≡◌, ◌≤ℤ◌, ◌-ℤ◌, pos};
ghost use Rattle.sheet_rules.specs.WellFormed.{is_count};
ghost use Rattle.sheet_history.specs.Fields.{field_of, may_have, old_of, new_of, changed_field};

use base_styles::Color;
use base_values::{Exact, LAST_COLUMN, LAST_ROW};
use sheet_grid::SheetState;

/// What stands in a field of a sheet.
#[derive(Clone, Copy, Debug, PartialEq, Eq)]
pub enum SheetField {
    /// Whether the sheet is shown.
    State(SheetState),
    /// The colour of its tab.
    Color(Color),
    /// Whether its grid lines are drawn.
    GridLines(bool),
    /// How many of its rows stay at the top.
    FrozenRows(i32),
    /// How many of its columns stay at the left.
    FrozenColumns(i32),
}

/// A change of a field of a sheet.
#[derive(Clone, Copy, Debug, PartialEq, Eq)]
pub enum FieldChange {
    State { old: SheetState, new: SheetState },
    Color { old: Color, new: Color },
    GridLines { old: bool, new: bool },
    FrozenRows { old: i32, new: i32 },
    FrozenColumns { old: i32, new: i32 },
}

/// Whether so many lines may be frozen of an axis that ends with a line: fewer than it has.
fn is_count(end: i32, count: i32) -> bool
    requires { pos 1 ≤ℤ end }
    ensures { result ≡ is_count (end -ℤ pos 1) count }
{
    0 <= count && count < end
}

impl SheetField {
    /// Whether a sheet of a well-formed workbook may have the value: from 0 to 1,048,575 rows and from
    /// 0 to 16,383 columns may be frozen, and any other value may stand in its field. It takes no memory.
    pub fn may_stand(self) -> bool
        ensures { result ≡ may_have self }
    {
        match self {
            SheetField::State(_) => true,
            SheetField::Color(_) => true,
            SheetField::GridLines(_) => true,
            SheetField::FrozenRows(count) => is_count(LAST_ROW, count),
            SheetField::FrozenColumns(count) => is_count(LAST_COLUMN, count),
        }
    }
}

impl FieldChange {
    /// What stood in the field.
    pub fn old_value(self) -> SheetField
        ensures value { result ≡ old_of self }
        ensures field { field_of result ≡ changed_field self }
    {
        match self {
            FieldChange::State { old, new: _ } => SheetField::State(old),
            FieldChange::Color { old, new: _ } => SheetField::Color(old),
            FieldChange::GridLines { old, new: _ } => SheetField::GridLines(old),
            FieldChange::FrozenRows { old, new: _ } => SheetField::FrozenRows(old),
            FieldChange::FrozenColumns { old, new: _ } => SheetField::FrozenColumns(old),
        }
    }

    /// What stands in it then.
    pub fn new_value(self) -> SheetField
        ensures value { result ≡ new_of self }
        ensures field { field_of result ≡ changed_field self }
    {
        match self {
            FieldChange::State { old: _, new } => SheetField::State(new),
            FieldChange::Color { old: _, new } => SheetField::Color(new),
            FieldChange::GridLines { old: _, new } => SheetField::GridLines(new),
            FieldChange::FrozenRows { old: _, new } => SheetField::FrozenRows(new),
            FieldChange::FrozenColumns { old: _, new } => SheetField::FrozenColumns(new),
        }
    }
}

impl Exact for SheetField {
    ghost use Rattle.std.proofs.Common.{rules};
    ghost use Rattle.sheet_history.specs.laws.FieldEquals.{sheet_field_equals};

    ghost copies = { λ a b h. Prim.search rules };

    ghost equals = { sheet_field_equals };
}

impl Exact for FieldChange {
    ghost use Rattle.std.proofs.Common.{rules};
    ghost use Rattle.sheet_history.specs.laws.FieldEquals.{field_change_equals};

    ghost copies = { λ a b h. Prim.search rules };

    ghost equals = { field_change_equals };
}
