ghost use Rattle.std.specs.Prelude.{◌≡◌};
ghost use Rattle.sheet_grid.specs.Lines.{line_of_row, row_of_line, line_of_column, column_of_line, is_plain, stored_line};

use crate::column_attr::ColumnAttr;
use crate::row_attr::RowAttr;
use base_shared::Shared;
use base_styles::Style;
use base_values::Exact;

/// The height of a row that has none of its own, in half pixels.
pub const USUAL_HEIGHT: i32 = 56;

/// The width of a column that has none of its own, in half pixels.
pub const USUAL_WIDTH: i32 = 250;

/// What a row or a column of a sheet has of its own, in one type for both. docs/MODEL.md has the
/// rules.
#[derive(Clone, Debug, PartialEq, Eq, Drop)]
pub struct LineAttr {
    /// The height of a row or the width of a column in half pixels, where the line has its own.
    pub size: Option<i32>,
    /// The style of the cells that have none. The default style counts as one here.
    pub style: Option<Shared<Style>>,
    /// Whether the line is not shown.
    pub hidden: bool,
}

impl LineAttr {
    /// The attributes of a row. It takes no memory.
    pub fn of_row(attr: RowAttr) -> LineAttr
        ensures { result ≡ line_of_row attr }
    {
        LineAttr {
            size: attr.height,
            style: attr.style,
            hidden: attr.hidden,
        }
    }

    /// The attributes of a column. It takes no memory.
    pub fn of_column(attr: ColumnAttr) -> LineAttr
        ensures { result ≡ line_of_column attr }
    {
        LineAttr {
            size: attr.width,
            style: attr.style,
            hidden: attr.hidden,
        }
    }

    /// The same attributes, of a row. It takes no memory.
    pub fn into_row(self) -> RowAttr
        ensures { result ≡ row_of_line self }
    {
        RowAttr {
            height: self.size,
            style: self.style,
            hidden: self.hidden,
        }
    }

    /// The same attributes, of a column. It takes no memory.
    pub fn into_column(self) -> ColumnAttr
        ensures { result ≡ column_of_line self }
    {
        ColumnAttr {
            width: self.size,
            style: self.style,
            hidden: self.hidden,
        }
    }

    /// Whether a line has nothing of its own: no size, no style, and it is shown.
    pub fn is_plain(&self) -> bool
        ensures { result ≡ is_plain self.now }
    {
        self.size.is_none() && self.style.is_none() && !self.hidden
    }

    /// What a sheet keeps of an entry of a line: a plain one counts as none.
    pub(crate) fn kept(entry: Option<LineAttr>) -> Option<LineAttr>
        ensures { result ≡ stored_line entry }
    {
        let Some(attr) = entry else {
            return None;
        };
        if attr.is_plain() { None } else { Some(attr) }
    }
}

impl Exact for LineAttr {
    ghost use Rattle.std.proofs.Common.{rules};
    ghost use Rattle.sheet_grid.specs.laws.LineEquals.{line_attr_equals};

    ghost copies = { λ a b h. Prim.search rules };

    ghost equals = { line_attr_equals };
}
