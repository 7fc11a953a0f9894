// Each call on maps with plain keys, once where there is enough memory.
use super::is_copied;
use base_maps::{IndexMap, NumberMap, PositionMap, SheetPlace, SheetPlaceMap};
use base_values::{EditError, Position, same};
use std::alloc::Global;
use std::process::Abort;
use std::test::Fail;

fn positions_go(
    rt: &impl Abort,
    alloc: Global,
    map: &mut PositionMap<bool>,
) -> Result<(), EditError> {
    let place = Position { row: 0, column: -3 };
    assert!(rt; map.is_empty());
    assert!(rt; map.insert(place, true)?.is_none());
    map.put(place, Some(false))?;
    assert_eq!(rt; map.keys(alloc)?.len(), 1);
    assert!(rt; is_copied(&*map)?);
    assert!(rt; map.get(place) == Some(&false));
    map.put(place, None)?;
    assert_eq!(rt; map.len(), 0);
    Ok(())
}

#[test]
fn positions(rt: HostRuntime) -> Result<(), Fail> {
    let mut map = PositionMap::new(rt.alloc());
    Ok(positions_go(&rt, rt.alloc(), &mut map)?)
}

/// Numbers that are put in descending order.
fn numbers_go(rt: &impl Abort, alloc: Global, map: &mut NumberMap<bool>) -> Result<(), EditError> {
    map.put(7, Some(true))?;
    map.put(-7, Some(false))?;
    assert!(rt; map.keys(alloc)?.as_slice() == [-7, 7].as_slice());
    assert_eq!(rt; map.iter().count(), 2);
    assert!(rt; is_copied(&*map)?);
    assert!(rt; map.insert(7, false)? == Some(true));
    assert!(rt; map.remove(-7) == Some(false));
    assert_eq!(rt; map.len(), 1);
    assert!(rt; !map.is_empty());
    Ok(())
}

#[test]
fn numbers(rt: HostRuntime) -> Result<(), Fail> {
    let mut map = NumberMap::new(rt.alloc());
    Ok(numbers_go(&rt, rt.alloc(), &mut map)?)
}

/// The same of indexes.
fn indexes_go(rt: &impl Abort, alloc: Global, map: &mut IndexMap<bool>) -> Result<(), EditError> {
    map.put(7, Some(true))?;
    map.put(0, Some(false))?;
    assert!(rt; map.keys(alloc)?.as_slice() == [0, 7].as_slice());
    assert_eq!(rt; map.iter().count(), 2);
    assert!(rt; is_copied(&*map)?);
    assert!(rt; map.insert(7, false)? == Some(true));
    assert!(rt; map.get(7) == Some(&false));
    assert!(rt; map.remove(0) == Some(false));
    assert_eq!(rt; map.len(), 1);
    assert!(rt; !map.is_empty());
    Ok(())
}

#[test]
fn indexes(rt: HostRuntime) -> Result<(), Fail> {
    let mut map = IndexMap::new(rt.alloc());
    Ok(indexes_go(&rt, rt.alloc(), &mut map)?)
}

/// Three places in ascending order: by sheet first, then by row, then by column.
const PLACES: [SheetPlace; 3] = [
    SheetPlace {
        sheet: 1,
        place: Position { row: 2, column: 1 },
    },
    SheetPlace {
        sheet: 2,
        place: Position { row: 1, column: 9 },
    },
    SheetPlace {
        sheet: 2,
        place: Position { row: 2, column: 1 },
    },
];

/// Whether the values of a map are the numbers from 1 on, in ascending order.
fn counts_up(map: &SheetPlaceMap<i32>) -> bool {
    let mut count = 0_i32;
    for (_, number) in map.iter() {
        count = count.wrapping_add(1);
        if *number != count {
            return false;
        }
    }
    true
}

fn sheet_places_go(
    rt: &impl Abort,
    alloc: Global,
    map: &mut SheetPlaceMap<i32>,
) -> Result<(), EditError> {
    let [first, second, third] = PLACES;
    map.put(third, Some(3))?;
    map.put(first, Some(1))?;
    map.put(second, Some(2))?;
    assert!(rt; map.len() == 3 && counts_up(&*map));
    assert!(rt; same(map.keys(alloc)?.get(0).unwrap_or(&third), &first));
    assert!(rt; is_copied(&*map)?);
    map.put(second, None)?;
    assert!(rt; map.get(second).is_none() && map.get(third) == Some(&3));
    assert!(rt; map.remove(first) == Some(1));
    assert!(rt; map.insert(first, 4)?.is_none());
    assert_eq!(rt; map.len(), 2);
    assert!(rt; !map.is_empty());
    Ok(())
}

#[test]
fn sheet_places(rt: HostRuntime) -> Result<(), Fail> {
    let mut map = SheetPlaceMap::new(rt.alloc());
    Ok(sheet_places_go(&rt, rt.alloc(), &mut map)?)
}
