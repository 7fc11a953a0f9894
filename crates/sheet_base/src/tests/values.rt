use super::is_copied;
use base_values::{Boxed, EditError, Items, PlaceMap, Position, Text, copy_of};
use std::alloc::Global;
use std::process::Abort;
use std::test::Fail;

fn items_go(rt: &impl Abort, text: &Text, items: &mut Items<Text>) -> Result<(), EditError> {
    items.push(copy_of(text)?)?;
    items.fit();
    assert_eq!(rt; items.len(), 1);
    assert!(rt; is_copied(&*items)?);
    items.truncate(0);
    assert_eq!(rt; items.len(), 0);
    Ok(())
}

fn is_boxed(alloc: Global, text: &Text) -> Result<bool, EditError> {
    let boxed = Boxed::new(alloc, copy_of(text)?)?;
    is_copied(&boxed)
}

fn texts_go(rt: &impl Abort, alloc: Global, text: &Text) -> Result<(), EditError> {
    assert!(rt; is_copied(text)?);
    assert!(rt; is_boxed(alloc, text)?);
    let mut items = Items::with_room(alloc, 2)?;
    items_go(rt, text, &mut items)
}

fn places_go(rt: &impl Abort, alloc: Global, map: &mut PlaceMap<bool>) -> Result<(), EditError> {
    let place = Position { row: 2, column: 3 };
    assert!(rt; map.insert(place, true)?.is_none());
    map.put(place, Some(false))?;
    assert_eq!(rt; map.keys(alloc)?.len(), 1);
    assert!(rt; is_copied(&*map)?);
    map.put(place, None)?;
    assert_eq!(rt; map.keys(alloc)?.len(), 0);
    Ok(())
}

fn new_places_go(rt: &impl Abort, alloc: Global) -> Result<(), EditError> {
    let mut map = PlaceMap::new(alloc);
    places_go(rt, alloc, &mut map)
}

/// Each call that may find no memory, once where there is enough.
#[test]
fn with_ample_memory(rt: HostRuntime) -> Result<(), Fail> {
    new_places_go(&rt, rt.alloc())?;
    let text = Text::new(String::from_str(rt.alloc(), "one")?);
    Ok(texts_go(&rt, rt.alloc(), &text)?)
}

/// What users are told of an error.
#[test]
fn errors_are_told(rt: HostRuntime) -> Result<(), Fail> {
    let refused = EditError::DiffRefused { entry: 3, diff: 4 };
    assert!(rt;
        refused.to_string(rt.alloc())?.as_str() == "diff 4 of entry 3 does not fit the workbook"
    );
    Ok(())
}
