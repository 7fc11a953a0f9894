//! What the lines of an axis have of their own: each entry goes where its line goes.

ghost use Rattle.std.specs.Prelude.{◌≡◌, ◌+ℤ◌, ◌-ℤ◌, pos, IsOkUnless, OnOk, Some};
ghost use Rattle.std.specs.Option.{option_copied};
ghost use Rattle.std.specs.FinMap.{get};
ghost use Rattle.base_values.specs.Places.{as_line};
ghost use Rattle.base_values.specs.declared.EditError.TheVariants.{NoMemory};
ghost use Rattle.base_maps.specs.Carried.{if_there, overlaid};
ghost use Rattle.base_maps.specs.laws.Gathering.{with_made};
ghost use Rattle.line_edits.specs.Edit.{amount};
ghost use Rattle.line_map.specs.Attributes.{block_lines, heir, heirs, line_brought, line_goes_along, LinesInside};
ghost use Rattle.line_map.specs.laws.HeirLaws.{Filled};
ghost use Rattle.line_routes.specs.RouteModel.{route_model};

use crate::follower::Follower;
use crate::restored::put_copy;
use crate::route_keys::RouteKeys;
use base_axis::{Axis, AxisMap, LineKeys};
use base_maps::NumberKeys;
use base_values::{EditError, Exact, as_line};
use line_edits::{Block, LineMap};
use line_routes::Route;

/// Whether the lines of an axis go along a route: those of the edited axis of the edited sheet.
pub fn goes_along<A: Axis, B: Axis, M: LineMap<A>>(route: &Route<'_, A, M>) -> bool
    ensures { result ≡ line_goes_along B.along (route_model route.now) }
{
    route.is_edited && A::of(B::of(true, false), B::of(false, true))
}

/// What lines take that come to stand between two others: what both of these have, where that is
/// the same.
fn heir<'m, V: Exact>(before: Option<&'m V>, after: Option<&'m V>) -> Option<&'m V>
    ensures { option_copied result ≡ heir V.eq (option_copied before.entry) (option_copied after.entry) }
{
    let (before, after) = (before?, after?);
    if *before == *after {
        Some(before)
    } else {
        None
    }
}

/// How many: none of a number below 0.
fn amount(count: i32) -> u32
    ensures { result ≡ amount count }
{
    if count < 0 { 0 } else { count as u32 }
}

/// The line that stands so many lines after another one.
fn line_after(line: i32, distance: u32) -> i64
    ensures { result ≡ line +ℤ pos distance }
{
    i64::from(line) + i64::from(distance)
}

/// Gives a line a copy of a value, if it is one of the axis.
fn fill_line<B: Axis, V: Exact + Drop>(
    line: i64,
    value: &V,
    map: &mut AxisMap<B, V>,
) -> Result<(), EditError>
    ensures map { OnOk result (map.new ≡ with_made (if_there (as_line B.along.last line) (λ n. Some (n, value.now))) map.old) }
    ensures only { IsOkUnless result NoMemory }
{
    match as_line(B::LAST, line) {
        Some(line) => put_copy(line, value, map),
        None => Ok(()),
    }
}

/// Gives the lines of a block, as far as they are lines of the axis, a copy of a value.
fn fill_block<B: Axis, V: Exact + Drop>(
    block: Block,
    value: &V,
    map: &mut AxisMap<B, V>,
) -> Result<(), EditError>
    ensures map { OnOk result (Filled (block_lines B.along.last (Some block)) (Some value.now) map.old map.new) }
    ensures only { IsOkUnless result NoMemory }
{
    let count = amount(block.count);
    for i in 0..count {
        let line = line_after(block.first, i);
        fill_line(line, value, map)?;
    }
    Ok(())
}

/// What the line before a line has.
fn held_before<B: Axis, V: Drop>(map: &AxisMap<B, V>, line: i32) -> Option<&V>
    requires { LinesInside B.along map.now }
    ensures { option_copied result ≡ get map.now (line -ℤ pos 1) }
{
    if line <= 1 { None } else { map.get(line - 1) }
}

/// What each line of a block has that is brought in, from the map before.
fn line_brought<B: Axis, V: Exact + Drop>(map: &AxisMap<B, V>, block: Block) -> Option<&V>
    requires { LinesInside B.along map.now }
    ensures { option_copied result ≡ line_brought B.along V.eq map.now block }
{
    if !B::of(false, true) {
        return None;
    }
    let (before, after) = (held_before(map, block.first), map.get(block.first));
    heir(before, after)
}

/// Gives the lines that are brought in what they take.
fn give_heirs<B: Axis, V: Exact + Drop>(
    inserted: Option<Block>,
    map: &AxisMap<B, V>,
    output: &mut AxisMap<B, V>,
) -> Result<(), EditError>
    requires { LinesInside B.along map.now }
    ensures output { OnOk result (output.new ≡ overlaid (heirs B.along V.eq inserted map.now) output.old) }
    ensures only { IsOkUnless result NoMemory }
{
    match inserted {
        Some(block) => match line_brought(map, block) {
            Some(value) => fill_block(block, value, output),
            None => Ok(()),
        },
        None => Ok(()),
    }
}

/// Lines go along on the edited axis of the edited sheet. Columns that are brought in take what the
/// columns before and after them both have, where that is the same.
impl<A: Axis, B: Axis, F: Follower<A> + Exact> RouteKeys<A, F> for LineKeys<B, F> {
    ghost use Rattle.line_map.specs.Attributes.{line_goes, lines_brought};
    ghost use Rattle.line_map.specs.laws.AttributeLaws.{line_keys, lines_bring};

    type Lost = NumberKeys<F>;

    type Parts = NumberKeys<F::Part>;

    ghost goes = { line_goes B.along };

    ghost at = { λ w _ _. w };

    ghost with_brought = { lines_brought B.along F.eq };

    fn goes<M: LineMap<A>>(route: &Route<'_, A, M>, line: i32) -> Option<i32> {
        if goes_along::<A, B, M>(route) {
            route.map.image(line)
        } else {
            Some(line)
        }
    }

    fn at<'a, M: LineMap<A>>(route: &Route<'a, A, M>, _from: i32, _to: i32) -> Route<'a, A, M> {
        *route
    }

    fn bring<M: LineMap<A>>(
        route: &Route<'_, A, M>,
        map: &AxisMap<B, F>,
        carried: &mut AxisMap<B, F>,
    ) -> Result<(), EditError> {
        if goes_along::<A, B, M>(route) {
            give_heirs(route.inserted(), map, carried)
        } else {
            Ok(())
        }
    }

    ghost are_keys = { line_keys B.along B.lawful };

    ghost brings = { lines_bring B.along B.lawful F.eq };

    ghost lost_fit = { λ key. tt };

    ghost parts_fit = { λ key. tt };
}
