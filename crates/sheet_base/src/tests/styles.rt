use super::is_copied;
use crate::{
    Alignment, Color, EditError, HorizontalAlignment, Style, ThemeColor, VerticalAlignment,
    read_color, same, test_update, update_style,
};
use std::process::Abort;
use std::test::Fail;

#[test]
fn with_ample_memory(rt: HostRuntime) -> Result<(), Fail> {
    let style = Style::new(rt.alloc())?;
    assert!(rt; style.num_fmt.as_str() == "general" && style.font.sz == 13);
    assert!(rt; is_copied(&style)?);
    Ok(())
}

/// Changes that are made one after another, and refused ones between them.
const UPDATES: [(&str, &str, Option<EditError>); 18] = [
    ("font.b", "true", None),
    ("font.i", "true", None),
    ("font.i", "false", None),
    ("font.u", "True", Some(EditError::StyleValue)),
    ("font.strike", "true", None),
    ("font.x", "true", Some(EditError::StylePath)),
    ("font", "?", Some(EditError::StylePath)),
    ("font.color", "#1aF", None),
    ("font.size", "+0030", None),
    ("font.size", "0", Some(EditError::StyleValue)),
    ("font.size", "2147483648", Some(EditError::StyleValue)),
    ("font.size_delta", "2147483647", Some(EditError::StyleValue)),
    ("font.size_delta", "-30", Some(EditError::StyleValue)),
    ("font.size_delta", "-4", None),
    ("fill.color", "theme:01", Some(EditError::StyleValue)),
    ("fill.bg_color", "theme:11", None),
    ("num_fmt", "0.00", None),
    ("alignment", "none", Some(EditError::StyleValue)),
];

/// Makes a change, and returns its refusal, if it is refused.
fn update(style: &mut Style, path: &str, value: &str) -> Option<EditError> {
    match update_style(&*style, path, value) {
        Ok(changed) => {
            *style = changed;
            None
        }
        Err(error) => Some(error),
    }
}

fn updates_go(rt: &impl Abort, style: &mut Style) {
    for (path, value, refusal) in UPDATES {
        assert_eq!(rt; test_update(&*style, path, value).err(), refusal, "{path}");
        assert_eq!(rt; update(style, path, value), refusal, "{path}");
    }
}

/// What is there after the changes: refused ones change nothing.
fn check_updated(rt: &impl Abort, style: &Style) {
    assert!(rt; style.font.b && !style.font.i && !style.font.u && style.font.strike);
    assert_eq!(rt; style.font.sz, 26);
    assert_eq!(rt; Some(style.font.color), read_color("#11AAFF"));
    assert_eq!(rt; style.fill, Color::Theme(ThemeColor::FollowedHyperlink));
    assert_eq!(rt; style.num_fmt.as_str(), "0.00");
    assert_eq!(rt; style.alignment, None);
}

#[test]
fn updates_in_turn(rt: HostRuntime) -> Result<(), Fail> {
    let mut style = Style::new(rt.alloc())?;
    updates_go(&rt, &mut style);
    check_updated(&rt, &style);
    Ok(())
}

const HORIZONTAL_NAMES: [&str; 8] = [
    "general",
    "left",
    "center",
    "right",
    "fill",
    "justify",
    "centerContinuous",
    "distributed",
];

const VERTICAL_NAMES: [&str; 5] = ["bottom", "center", "distributed", "justify", "top"];

/// The alignment of a style after a change of its horizontal part.
fn horizontal(style: &Style, name: &str) -> Result<Option<Alignment>, EditError> {
    Ok(update_style(style, "alignment.horizontal", name)?.alignment)
}

fn horizontals_go(rt: &impl Abort, style: &Style) -> Result<(), EditError> {
    for (part, name) in HorizontalAlignment::ALL.iter().zip(HORIZONTAL_NAMES.iter()) {
        let mut alignment = Alignment::default();
        alignment.horizontal = *part;
        assert_eq!(rt; horizontal(style, name)?, Some(alignment), "{name}");
    }
    Ok(())
}

/// A style with another vertical part of its alignment, whose text is wrapped.
fn wrapped(style: &Style, name: &str) -> Result<Style, EditError> {
    let changed = update_style(style, "alignment.vertical", name)?;
    update_style(&changed, "alignment.wrap_text", "true")
}

/// Its alignment, and whether the style is as it was where that is taken away.
fn vertical(style: &Style, name: &str) -> Result<(Option<Alignment>, bool), EditError> {
    let wrapped = wrapped(style, name)?;
    let without = update_style(&wrapped, "alignment", "")?;
    Ok((wrapped.alignment, same(&without, style)))
}

fn verticals_go(rt: &impl Abort, style: &Style) -> Result<(), EditError> {
    for (part, name) in VerticalAlignment::ALL.iter().zip(VERTICAL_NAMES.iter()) {
        let mut alignment = Alignment::default();
        alignment.vertical = *part;
        alignment.wrap_text = true;
        assert_eq!(rt; vertical(style, name)?, (Some(alignment), true), "{name}");
    }
    Ok(())
}

/// Each alignment by its name, and what the other parts are where there was none.
fn alignments_go(rt: &impl Abort, style: &Style) -> Result<(), EditError> {
    horizontals_go(rt, style)?;
    verticals_go(rt, style)
}

#[test]
fn alignments_by_name(rt: HostRuntime) -> Result<(), Fail> {
    let style = Style::new(rt.alloc())?;
    Ok(alignments_go(&rt, &style)?)
}
