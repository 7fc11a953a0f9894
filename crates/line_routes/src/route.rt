ghost use Rattle.std.specs.Prelude.{◌≡◌, true};
ghost use Rattle.base_values.specs.Places.{IsPlace};

use base_axis::Axis;
use base_values::Position;
use line_edits::LineMap;
use std::alloc::AllocError;
use std::marker::PhantomData;

/// How a map on the lines of one sheet meets a sheet of the workbook, and where what it carries
/// stands. docs/MODEL.md has the rules.
pub struct Route<'a, A: Axis, M: LineMap<A>> {
    pub map: &'a M,
    /// The map that takes the lines back.
    pub opposite: &'a M,
    /// Whether lines are brought in.
    pub brings: bool,
    /// The id of the edited sheet.
    pub sheet: u32,
    /// The name of the edited sheet.
    pub edited: &'a str,
    /// Whether what is carried along stands on the edited sheet.
    pub is_edited: bool,
    /// The place of what is carried along, before and afterwards.
    pub from: Position,
    pub to: Position,
    pub axis: PhantomData<A>,
    pub ghost valid: { M.is_valid map.now ≡ true },
    pub ghost valid_back: { M.is_valid opposite.now ≡ true },
    pub ghost goes_back: { (M.moves opposite.now).to ≡ (M.moves map.now).from },
    pub ghost comes_back: { (M.moves opposite.now).from ≡ (M.moves map.now).to },
    pub ghost merges_back: { (M.moves opposite.now).merged ≡ (M.moves map.now).merged_back },
    pub ghost merges_again: { (M.moves opposite.now).merged_back ≡ (M.moves map.now).merged },
    pub ghost from_inside: { IsPlace from },
    pub ghost to_inside: { IsPlace to },
}

impl<'a, A: Axis, M: LineMap<A>> Clone for Route<'a, A, M> {
    ghost is_clone = { λ s r. r ≡ s };

    fn clone(&self) -> Result<Route<'a, A, M>, AllocError> {
        Ok(*self)
    }
}

impl<'a, A: Axis, M: LineMap<A>> Copy for Route<'a, A, M> {}
