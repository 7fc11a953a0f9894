//! Styles that are laid over places as tiles.

ghost use Rattle.std.specs.Prelude.{◌≡◌, ◌-ℤ◌, unsigned_abs};
ghost use Rattle.std.specs.Option.{option_copied};
ghost use Rattle.range_styles.specs.Tiles.{repeated, tile_at};

use crate::change::StyleChange;
use base_shared::Shared;
use base_styles::Style;
use base_values::{EditError, Items, Position, copy_of};

/// Rows of styles that are repeated over places, where the first one lies at a place. It is meant for
/// rows of one length whose fonts have sizes of 1 or more: a style with another font changes nothing.
#[derive(Drop)]
pub struct StyleTiles {
    pub rows: Items<Items<Shared<Style>>>,
    pub first: Position,
}

/// The item of a list so many places on, where the list is repeated without end.
fn repeated<T>(items: &Items<T>, index: u32) -> Option<&T>
    ensures { option_copied result ≡ repeated items.now index }
{
    if items.len() == 0 {
        return None;
    }
    items.get(index as usize % items.len())
}

/// How many lines stand between two.
fn distance(line: i32, first: i32) -> u32
    ensures { result ≡ unsigned_abs (line -ℤ first) }
{
    line.abs_diff(first)
}

impl StyleTiles {
    /// The style that lies over a place.
    fn tile_at(&self, place: Position) -> Option<&Shared<Style>>
        ensures { option_copied result ≡
            tile_at self.now.rows (unsigned_abs (place.row -ℤ self.now.first.row))
            (unsigned_abs (place.column -ℤ self.now.first.column)) }
    {
        let row = repeated(&self.rows, distance(place.row, self.first.row))?;
        repeated(row, distance(place.column, self.first.column))
    }
}

impl StyleChange for StyleTiles {
    ghost use Rattle.std.specs.Prelude.{true};
    ghost use Rattle.base_values.specs.declared.EditError.TheVariants.{NoMemory, StyleValue};
    ghost use Rattle.range_styles.specs.Tiles.{tiles};
    ghost use Rattle.range_styles.specs.laws.TileLaws.{tiles_sized};

    ghost made_of = { λ change. tiles change.rows change.first };

    ghost takes = { λ _ _ _. true };

    ghost refusal_of = { λ _. StyleValue };

    fn accepts(&self, _place: Position, _style: &Style) -> bool {
        true
    }

    fn style_at(&self, place: Position, style: &Shared<Style>) -> Result<Shared<Style>, EditError> {
        match self.tile_at(place) {
            Some(tile) => {
                if tile.get().font.sz >= 1 {
                    copy_of(tile)
                } else {
                    copy_of(style)
                }
            }
            None => copy_of(style),
        }
    }

    fn refusal(&self) -> EditError {
        EditError::StyleValue
    }

    ghost sure = { λ change e. let never : StyleValue ≡ NoMemory = e in Prim.cc };

    ghost sized = { λ change place style. tiles_sized change.rows change.first place style };
}
