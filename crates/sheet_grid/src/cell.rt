ghost use Rattle.std.specs.Prelude.{◌≡◌};

use base_shared::Shared;
use base_styles::Style;
use base_values::Exact;
use cell_content::Content;
use std::alloc::AllocError;

/// A cell of a sheet.
#[derive(PartialEq, Eq, Drop)]
pub struct Cell {
    pub content: Content,
    pub style: Shared<Style>,
}

impl Clone for Cell {
    ghost is_clone = { λ s r. r ≡ s };

    fn clone(&self) -> Result<Cell, AllocError> {
        Ok(Cell {
            content: self.content.clone()?,
            style: self.style.clone()?,
        })
    }
}

impl Exact for Cell {
    ghost use Rattle.sheet_grid.specs.laws.CellEquals.{cell_equals};

    ghost copies = { λ a b h. h };

    ghost equals = { cell_equals };
}
