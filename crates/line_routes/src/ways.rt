ghost use Rattle.std.specs.Prelude.{◌≡◌, true, IfSome};
ghost use Rattle.base_tables.specs.Folding.{same_folded};
ghost use Rattle.base_values.specs.Places.{IsPlace};
ghost use Rattle.line_edits.specs.Moves.{place_image};
ghost use Rattle.line_routes.specs.RouteModel.{IsRoute, at, back, on, place_goes, route_model};

use crate::route::Route;
use base_axis::Axis;
use base_tables::same_by_folding;
use base_values::Position;
use line_edits::{Block, LineMap, place_image};
use std::marker::PhantomData;

impl<'a, A: Axis, M: LineMap<A>> Route<'a, A, M> {
    /// The route of what goes from a place to a place.
    pub fn at(&self, from: Position, to: Position) -> Route<'a, A, M>
        requires from { IsPlace from }
        requires to { IsPlace to }
        ensures { route_model result ≡ at (route_model self.now) from to }
    {
        Route {
            map: self.map,
            opposite: self.opposite,
            brings: self.brings,
            sheet: self.sheet,
            edited: self.edited,
            is_edited: self.is_edited,
            from,
            to,
            axis: PhantomData,
        }
    }

    /// The same where the edited sheet has this id and this name.
    pub fn of_sheet<'t>(&self, sheet: u32, edited: &'t str) -> Route<'t, A, M>
    where
        'a: 't,
        ensures { route_model result ≡ record (route_model self.now) { sheet = sheet; edited = edited.now; is_edited = true } }
    {
        Route {
            map: self.map,
            opposite: self.opposite,
            brings: self.brings,
            sheet,
            edited,
            is_edited: true,
            from: self.from,
            to: self.to,
            axis: PhantomData,
        }
    }

    /// The route of what stands on the sheet of this id.
    pub fn on<'t>(&self, sheet: u32) -> Route<'t, A, M>
    where
        'a: 't,
        ensures { route_model result ≡ on (route_model self.now) sheet }
    {
        Route {
            map: self.map,
            opposite: self.opposite,
            brings: self.brings,
            sheet: self.sheet,
            edited: self.edited,
            is_edited: sheet == self.sheet,
            from: self.from,
            to: self.to,
            axis: PhantomData,
        }
    }

    /// The route of what names its own sheet and the edited one. It stands on the edited sheet where
    /// these names are equal by simple case folding.
    pub(crate) fn of_names<'t>(&self, own: &str, edited: &'t str) -> Route<'t, A, M>
    where
        'a: 't,
        ensures { route_model result ≡ record (route_model self.now) { edited = edited.now; is_edited = same_folded own.now edited.now } }
    {
        Route {
            map: self.map,
            opposite: self.opposite,
            brings: self.brings,
            sheet: self.sheet,
            edited,
            is_edited: same_by_folding(own, edited),
            from: self.from,
            to: self.to,
            axis: PhantomData,
        }
    }

    /// The way back. It brings no lines in.
    pub fn back(&self) -> Route<'a, A, M>
        ensures { route_model result ≡ back (route_model self.now) }
    {
        Route {
            map: self.opposite,
            opposite: self.map,
            brings: false,
            sheet: self.sheet,
            edited: self.edited,
            is_edited: self.is_edited,
            from: self.to,
            to: self.from,
            axis: PhantomData,
        }
    }

    /// It goes one to one along its axis.
    pub fn is_route(&self)
        ensures { IsRoute (route_model self.now) }
    {
        // The promise is one of the type.
        let _ = self.from;
    }

    /// Where a place goes along the map, whether or not this sheet is the edited one.
    pub fn image(&self, place: Position) -> Option<Position>
        requires { IsPlace place }
        ensures value { result ≡ place_image A.along (M.moves self.now.map.now).to place }
        ensures inside { IfSome result IsPlace }
    {
        place_image(self.map, place)
    }

    /// Where a place of the sheet goes.
    #[tactic(auto, unfolding(crate::specs::RouteModel::place_goes))]
    pub fn goes(&self, place: Position) -> Option<Position>
        requires { IsPlace place }
        ensures value { result ≡ place_goes (route_model self.now) place }
        ensures inside { IfSome result IsPlace }
    {
        if self.is_edited {
            self.image(place)
        } else {
            Some(place)
        }
    }

    /// The lines that are brought in.
    pub fn inserted(&self) -> Option<Block>
        ensures { result ≡ (route_model self.now).moves.inserted }
    {
        if self.brings {
            self.map.inserted()
        } else {
            None
        }
    }
}
