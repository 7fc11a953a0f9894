//! The rectangles that arrays fill.

ghost use Rattle.std.specs.Prelude.{◌≡◌};
ghost use Rattle.sheet_grid.specs.Arrays.{array_at, where_large, large_array_at};

use base_axis::MergedCell;
use base_values::Position;
use cell_content::Content;

/// The rectangle that an array at a place fills, whatever its sides are. Any other content fills
/// none. docs/MODEL.md has the rule.
pub fn array_at(place: Position, content: &Content) -> Option<MergedCell>
    ensures { result ≡ array_at place content.now }
{
    match content {
        Content::Array { width, height, .. } => Some(MergedCell {
            row: place.row,
            column: place.column,
            width: *width,
            height: *height,
        }),
        _ => None,
    }
}

fn where_large(rectangle: Option<MergedCell>) -> Option<MergedCell>
    ensures { result ≡ where_large rectangle }
{
    match rectangle {
        Some(found) if found.has_many() => Some(found),
        _ => None,
    }
}

/// The rectangle that an array at a place fills, where it has more than one cell.
pub fn large_array_at(place: Position, content: &Content) -> Option<MergedCell>
    ensures { result ≡ large_array_at place content.now }
{
    where_large(array_at(place, content))
}
