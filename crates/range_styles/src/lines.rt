//! The rows and columns of a range with other styles.

ghost use Rattle.std.specs.Prelude.{◌≡◌, ◌||◌, not, unsigned_abs, IfOk, IsOkUnless, Ok, OnOk, Some, length, nat_lt};
ghost use Rattle.std.specs.FinMap.{entries};
ghost use Rattle.std.specs.Option.{option_copied};
ghost use Rattle.base_axis.specs.Rectangles.{IsInside, first_line, line_count};
ghost use Rattle.base_values.specs.Answers.{Returns};
ghost use Rattle.base_values.specs.Places.{IsLine};
ghost use Rattle.base_values.specs.declared.EditError.TheVariants.{NoMemory};
ghost use Rattle.sheet_grid.specs.Lines.{attr_of, stored_line, with_style};
ghost use Rattle.planned_maps.specs.laws.PlanWalks.{kept_put, lines_all, lines_put, put_one};
ghost use Rattle.range_styles.specs.StyleRanges.{is_among, is_full_columns, is_full_rows, touches_line};
ghost use Rattle.range_styles.specs.Styled.{attr_styled, stored_style, line_accepts, line_place, line_style_made, line_styled, lines_accept, lines_styled};

use crate::change::StyleChange;
use crate::range::{AreaKind, StyleRange};
use crate::shown::{has_style, is_default, line_style};
use crate::walk::has_line;
use base_axis::{Axis, AxisMap};
use base_shared::Shared;
use base_styles::Style;
use base_values::{EditError, Position};
use planned_maps::{count_lines, line_in};
use sheet_grid::{DefaultStyle, LineAttr};
use std::alloc::Global;

type PlannedLines<A> = AxisMap<A, Option<LineAttr>>;

/// Whether a range consists of lines of an axis.
fn has_lines<A: Axis>(kind: AreaKind) -> bool
    ensures { result ≡ A.along.of (is_full_rows kind) (is_full_columns kind) }
{
    A::of(
        matches!(kind, AreaKind::FullRows),
        matches!(kind, AreaKind::FullColumns),
    )
}

/// The place that stands for a line.
fn line_place<A: Axis>(line: i32) -> Position
    ensures { result ≡ line_place A.along line }
{
    A::with_line(Position { row: 1, column: 1 }, line)
}

/// Whether a line is one of those that a range consists of.
fn is_among<A: Axis>(range: StyleRange, line: i32) -> bool
    ensures { result ≡ is_among A.along range line }
{
    has_lines::<A>(range.kind) && has_line::<A>(range.area, line)
}

/// Whether a range touches a line.
fn touches_line<A: Axis>(range: StyleRange, lines: &AxisMap<A, LineAttr>, line: i32) -> bool
    ensures { result ≡ touches_line A.along range lines.now line }
{
    is_among::<A>(range, line) && (!range.clears || has_style(lines.get(line)))
}

/// Whether the change may be made of the style of a line, if the line is touched.
fn accepts_line<A: Axis, C: StyleChange>(
    default: &DefaultStyle,
    range: StyleRange,
    change: &C,
    lines: &AxisMap<A, LineAttr>,
    line: i32,
) -> bool
    ensures { result ≡ line_accepts A.along range (C.takes change.now) lines.now line }
{
    !touches_line::<A>(range, lines, line)
        || (range.clears
            || change.accepts(
                line_place::<A>(line),
                line_style(lines.get(line), default).get(),
            ))
}

/// The same of each line of a rectangle.
fn accepts_each<A: Axis, C: StyleChange>(
    default: &DefaultStyle,
    range: StyleRange,
    change: &C,
    lines: &AxisMap<A, LineAttr>,
) -> bool
    requires { IsInside range.area }
    ensures { result ≡
        lines_all (line_accepts A.along range (C.takes change.now) lines.now)
        (first_line A.along range.area) (unsigned_abs (line_count A.along range.area)) }
{
    let mut all = true;
    for index in 0..count_lines::<A>(range.area) {
        let line = line_in::<A>(range.area, index);
        all = all && accepts_line(default, range, change, lines, line);
    }
    all
}

/// Whether the change may be made of the style of each line that a range touches. It takes no memory.
#[tactic(auto, using(crate::specs::laws::RangeLaws::each_accepts, crate::specs::laws::RangeLaws::clears_accept, crate::specs::laws::RangeLaws::none_accept))]
pub(crate) fn accepts_lines<A: Axis, C: StyleChange>(
    default: &DefaultStyle,
    range: StyleRange,
    change: &C,
    lines: &AxisMap<A, LineAttr>,
) -> bool
    requires { IsInside range.area }
    ensures { result ≡ lines_accept A.along range (C.takes change.now) lines.now }
{
    if range.clears {
        return true;
    }
    if !has_lines::<A>(range.kind) {
        return true;
    }
    accepts_each(default, range, change, lines)
}

/// The style that a line may have of its own: a row does not have the default one.
fn stored_style<A: Axis>(default: &DefaultStyle, style: Shared<Style>) -> Option<Shared<Style>>
    ensures { result ≡ stored_style A.along style }
{
    if A::of(true, false) && is_default(default, &style) {
        None
    } else {
        Some(style)
    }
}

/// What the change makes of the style of a line that has this of its own.
fn style_made<A: Axis, C: StyleChange>(
    default: &DefaultStyle,
    range: StyleRange,
    change: &C,
    line: i32,
    entry: Option<&LineAttr>,
) -> Result<Option<Shared<Style>>, EditError>
    ensures { Returns result (Ok (line_style_made A.along range (C.made_of change.now) line (option_copied entry.entry))) }
{
    if range.clears {
        return Ok(None);
    }
    let style = change.style_at(line_place::<A>(line), line_style(entry, default))?;
    Ok(stored_style::<A>(default, style))
}

/// What a line has of its own that has this size, this style and this hiding.
fn attr_with(entry: Option<&LineAttr>, style: Option<Shared<Style>>) -> LineAttr
    ensures { result ≡ with_style style (attr_of (option_copied entry.entry)) }
{
    match entry {
        Some(attr) => LineAttr {
            size: attr.size,
            style,
            hidden: attr.hidden,
        },
        None => LineAttr {
            size: None,
            style,
            hidden: false,
        },
    }
}

/// What a sheet stores of a line: nothing where it has nothing of its own.
fn stored_line(attr: LineAttr) -> Option<LineAttr>
    ensures { result ≡ stored_line (Some attr) }
{
    if attr.is_plain() { None } else { Some(attr) }
}

/// What a line has then that has this of its own.
fn styled_attr<A: Axis, C: StyleChange>(
    default: &DefaultStyle,
    range: StyleRange,
    change: &C,
    line: i32,
    entry: Option<&LineAttr>,
) -> Result<Option<LineAttr>, EditError>
    ensures { Returns result (Ok (attr_styled A.along range (C.made_of change.now) line (option_copied entry.entry))) }
{
    let style = style_made::<A, C>(default, range, change, line, entry)?;
    Ok(stored_line(attr_with(entry, style)))
}

/// Plans what a line gets, if it is touched.
fn put_line<A: Axis, C: StyleChange>(
    default: &DefaultStyle,
    range: StyleRange,
    change: &C,
    lines: &AxisMap<A, LineAttr>,
    line: i32,
    planned: &mut PlannedLines<A>,
) -> Result<(), EditError>
    requires { IsLine A.along.last line }
    ensures put { OnOk result (planned.new ≡
        put_one (line_styled A.along range (C.made_of change.now) lines.now) planned.old line) }
    ensures only { IsOkUnless result NoMemory }
{
    if touches_line::<A>(range, lines, line) {
        let attr = styled_attr::<A, C>(default, range, change, line, lines.get(line))?;
        let _before = planned.insert(line, attr)?;
    }
    Ok(())
}

/// What each line of a rectangle gets, if it is touched.
fn put_each<A: Axis, C: StyleChange>(
    alloc: Global,
    default: &DefaultStyle,
    range: StyleRange,
    change: &C,
    lines: &AxisMap<A, LineAttr>,
) -> Result<PlannedLines<A>, EditError>
    requires { IsInside range.area }
    ensures put { IfOk result (λ planned. planned ≡
        lines_put (line_styled A.along range (C.made_of change.now) lines.now)
        (first_line A.along range.area) (unsigned_abs (line_count A.along range.area))) }
    ensures only { IsOkUnless result NoMemory }
{
    let mut planned = AxisMap::new(alloc);
    for index in 0..count_lines::<A>(range.area) {
        let line = line_in::<A>(range.area, index);
        put_line(default, range, change, lines, line, &mut planned)?;
    }
    Ok(planned)
}

/// What each line gets that has something of its own, if it is touched.
fn put_kept<A: Axis, C: StyleChange>(
    alloc: Global,
    default: &DefaultStyle,
    range: StyleRange,
    change: &C,
    lines: &AxisMap<A, LineAttr>,
) -> Result<PlannedLines<A>, EditError>
    ensures put { IfOk result (λ planned. planned ≡
        kept_put (line_styled A.along range (C.made_of change.now) lines.now) lines.now) }
    ensures only { IsOkUnless result NoMemory }
{
    let mut planned = AxisMap::new(alloc);
    for (line, _attr) in lines.iter() {
        put_line(default, range, change, lines, *line, &mut planned)?;
    }
    Ok(planned)
}

/// Whether fewer than so many lines have something of their own.
fn has_fewer_lines<A: Axis>(lines: &AxisMap<A, LineAttr>, count: u32) -> bool
    ensures { result ≡ nat_lt (length (entries lines.now)) count }
{
    (lines.iter().len() as u64) < u64::from(count)
}

/// What the lines get that a range touches. It goes over the lines of the range, and where styles
/// are taken away over those that have something of their own, if they are fewer. `NoMemory` alone
/// is an error.
#[tactic(auto, using(crate::specs::laws::RangeLaws::each_planned, crate::specs::laws::RangeLaws::kept_planned, crate::specs::laws::RangeLaws::none_planned))]
pub(crate) fn styled_lines<A: Axis, C: StyleChange>(
    alloc: Global,
    lines: &AxisMap<A, LineAttr>,
    default: &DefaultStyle,
    range: StyleRange,
    change: &C,
) -> Result<PlannedLines<A>, EditError>
    requires { IsInside range.area }
    ensures output { IfOk result (λ planned. planned ≡ lines_styled A.along range (C.made_of change.now) lines.now) }
    ensures only { IsOkUnless result NoMemory }
{
    if !has_lines::<A>(range.kind) {
        return Ok(AxisMap::new(alloc));
    }
    if range.clears && has_fewer_lines(lines, count_lines::<A>(range.area)) {
        return put_kept(alloc, default, range, change, lines);
    }
    put_each(alloc, default, range, change, lines)
}
