ghost use Rattle.base_values.specs.Places.{IsPlace};

use crate::displace_data::DisplaceData;
use crate::images::{displaced_corner, is_exposed, is_reached};
use base_shared::Shared;
use base_values::{Position, Text};
use formula_tree::{Corner, CornerMap};

/// A displacement as a formula in a cell sees it.
#[derive(Clone, Copy)]
pub struct Displacement<'a> {
    /// The name of the formula's own sheet.
    pub own: &'a str,
    pub place: Position,
    pub data: &'a DisplaceData<'a>,
    pub ghost inside: { IsPlace place },
}

impl<'a> CornerMap for Displacement<'a> {
    ghost use Rattle.formula_move.specs.Displace.{displacing};

    ghost mapping = { λ self. displacing self.own.now self.place self.data.now };

    fn reference(&self, sheet: &Option<Shared<Text>>, corner: Corner) -> Option<Corner> {
        let exposed = is_reached(self.own, self.data, sheet);
        displaced_corner(self.place, self.data, exposed, corner)
    }

    fn range(
        &self,
        sheet: &Option<Shared<Text>>,
        first: Corner,
        second: Corner,
    ) -> (Option<Corner>, Option<Corner>) {
        let exposed = is_exposed(self.own, self.data, sheet, first, second);
        (
            displaced_corner(self.place, self.data, exposed, first),
            displaced_corner(self.place, self.data, exposed, second),
        )
    }
}
