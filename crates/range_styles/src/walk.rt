//! Plans of what an edit makes of the places of a rectangle.
//!
//! They are made by going over all places of it, or over entries that stand in the sheet, whichever
//! are fewer.

ghost use Rattle.std.specs.Prelude.{◌≡◌, IfOk, IsOkUnless, IsTrue, Ok, OnOk, Option, Some, unsigned_abs};
ghost use Rattle.base_axis.specs.Rectangles.{IsInside, first_line, holds, is_between, last_line};
ghost use Rattle.base_values.specs.Answers.{Returns};
ghost use Rattle.base_values.specs.Places.{IsLine, IsPlace};
ghost use Rattle.base_values.specs.declared.Position.{Position};
ghost use Rattle.base_axis.specs.declared.MergedCell.{MergedCell};
ghost use Rattle.base_values.specs.declared.EditError.TheVariants.{NoMemory};
ghost use Rattle.planned_maps.specs.Planned.{planned_places};
ghost use Rattle.planned_maps.specs.laws.PlanWalks.{line_done, places_put, put_one, rows_put};
ghost use Rattle.range_styles.specs.PlaceWalks.{MakesThere, has_fewer};

use base_axis::{Axis, MergedCell, RowAxis};
use base_values::{EditError, PlaceMap, Position};
use planned_maps::{count_across, place_across, row_at};
use std::alloc::Global;

/// What an edit makes of the places of a rectangle.
pub(crate) trait PlaceEdit<X> {
    ghost make: { Self → Position → Option X };

    ghost area_of: { Self → MergedCell };

    /// The rectangle.
    fn area(&self) -> MergedCell
        ensures { result ≡ area_of self.now };

    /// What a place gets, if it gets something. `NoMemory` alone is an error.
    fn entry_at(&self, place: Position) -> Result<Option<X>, EditError>
        ensures { Returns result (Ok (make self.now place)) };

    /// A place outside the rectangle gets nothing.
    ghost inside: { (edit : Self) (place : Position) (x : X) → make edit place ≡ Some x → IsTrue (holds (area_of edit) place) };
}

/// Whether a rectangle has fewer than so many places.
pub(crate) fn has_fewer(area: MergedCell, count: usize) -> bool
    ensures { result ≡ has_fewer area count }
{
    u64::from(area.width.unsigned_abs()) * u64::from(area.height.unsigned_abs()) < count as u64
}

/// Plans what a place gets, if it gets something.
fn put_place<X: Drop, E: PlaceEdit<X>>(
    edit: &E,
    place: Position,
    planned: &mut PlaceMap<X>,
) -> Result<(), EditError>
    requires { IsPlace place }
    ensures put { OnOk result (planned.new ≡ put_one (E.make edit.now) planned.old place) }
    ensures only { IsOkUnless result NoMemory }
{
    if let Some(value) = edit.entry_at(place)? {
        let _before = planned.insert(place, value)?;
    }
    Ok(())
}

/// Plans what the places of a line get.
fn put_line<A: Axis, X: Drop, E: PlaceEdit<X>>(
    edit: &E,
    area: MergedCell,
    line: i32,
    planned: &mut PlaceMap<X>,
) -> Result<(), EditError>
    requires area { IsInside area }
    requires line { IsLine A.along.last line }
    ensures put { OnOk result (planned.new ≡ line_done (E.make edit.now) A.along area line planned.old) }
    ensures only { IsOkUnless result NoMemory }
{
    for index in 0..count_across::<A>(area) {
        put_place(edit, place_across::<A>(area, line, index), planned)?;
    }
    Ok(())
}

/// Whether a line is one of those of a rectangle.
pub(crate) fn has_line<A: Axis>(area: MergedCell, line: i32) -> bool
    ensures { result ≡ is_between (first_line A.along area) (last_line A.along area) line }
{
    area.first_line::<A>() <= line && i64::from(line) <= area.last_line::<A>()
}

/// Plans what the places of a line get. Nothing where the line is none of the rectangle.
pub(crate) fn put_own_line<A: Axis, X: Drop, E: PlaceEdit<X>>(
    edit: &E,
    line: i32,
    planned: &mut PlaceMap<X>,
) -> Result<(), EditError>
    requires area { IsInside (E.area_of edit.now) }
    requires line { IsLine A.along.last line }
    ensures put { OnOk result (planned.new ≡ line_done (E.make edit.now) A.along (E.area_of edit.now) line planned.old) }
    ensures only { IsOkUnless result NoMemory }
{
    let area = edit.area();
    if has_line::<A>(area, line) {
        put_line::<A, X, E>(edit, area, line, planned)?;
    }
    Ok(())
}

/// Plans what the places of all rows of a rectangle get.
fn put_rows<X: Drop, E: PlaceEdit<X>>(
    edit: &E,
    area: MergedCell,
    planned: &mut PlaceMap<X>,
) -> Result<(), EditError>
    requires { IsInside area }
    ensures put { OnOk result (planned.new ≡ rows_put (E.make edit.now) area planned.old (unsigned_abs area.height)) }
    ensures only { IsOkUnless result NoMemory }
{
    for index in 0..area.height.unsigned_abs() {
        put_line::<RowAxis, X, E>(edit, area, row_at(area, index), planned)?;
    }
    Ok(())
}

/// Plans what the places get that have an entry.
pub(crate) fn put_entries<X: Drop, V, E: PlaceEdit<X>>(
    edit: &E,
    there: &PlaceMap<V>,
    planned: &mut PlaceMap<X>,
) -> Result<(), EditError>
    ensures put { OnOk result (planned.new ≡ places_put (E.make edit.now) planned.old there.now) }
    ensures only { IsOkUnless result NoMemory }
{
    for (place, _entry) in there.iter() {
        put_place(edit, *place, planned)?;
    }
    Ok(())
}

/// What the places of a rectangle get. It goes over all of them. `NoMemory` alone is an error.
pub(crate) fn plan_places<X: Drop, E: PlaceEdit<X>>(
    alloc: Global,
    edit: &E,
) -> Result<PlaceMap<X>, EditError>
    requires { IsInside (E.area_of edit.now) }
    ensures output { IfOk result (λ planned. planned ≡ planned_places (E.make edit.now) (E.area_of edit.now)) }
    ensures only { IsOkUnless result NoMemory }
{
    let mut planned = PlaceMap::new(alloc);
    put_rows(edit, edit.area(), &mut planned)?;
    Ok(planned)
}

/// The same where only places get something that have an entry. It goes over the entries.
fn plan_entries<X: Drop, V, E: PlaceEdit<X>>(
    alloc: Global,
    edit: &E,
    there: &PlaceMap<V>,
) -> Result<PlaceMap<X>, EditError>
    requires { MakesThere (E.make edit.now) there.now }
    ensures output { IfOk result (λ planned. planned ≡ planned_places (E.make edit.now) (E.area_of edit.now)) }
    ensures only { IsOkUnless result NoMemory }
{
    let mut planned = PlaceMap::new(alloc);
    put_entries(edit, there, &mut planned)?;
    Ok(planned)
}

/// The same. It goes over the places of the rectangle or over the entries, whichever are fewer.
pub(crate) fn plan_there<X: Drop, V, E: PlaceEdit<X>>(
    alloc: Global,
    edit: &E,
    there: &PlaceMap<V>,
) -> Result<PlaceMap<X>, EditError>
    requires area { IsInside (E.area_of edit.now) }
    requires there { MakesThere (E.make edit.now) there.now }
    ensures output { IfOk result (λ planned. planned ≡ planned_places (E.make edit.now) (E.area_of edit.now)) }
    ensures only { IsOkUnless result NoMemory }
{
    if has_fewer(edit.area(), there.iter().len()) {
        plan_places(alloc, edit)
    } else {
        plan_entries(alloc, edit, there)
    }
}
