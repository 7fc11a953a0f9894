use base_values::{EditError, Items};
use sheet_grid::Worksheet;
use sheet_naming::next_id;
use std::alloc::Global;
use std::test::Fail;

fn push_two(
    alloc: Global,
    sheets: &mut Items<Worksheet>,
    first: u32,
    second: u32,
) -> Result<(), EditError> {
    sheets.push(Worksheet::new(alloc, first, "One")?)?;
    sheets.push(Worksheet::new(alloc, second, "Two")?)?;
    Ok(())
}

/// The id of a new sheet beside those of these ids.
fn id_beside(alloc: Global, first: u32, second: u32) -> Result<Result<u32, EditError>, EditError> {
    let mut sheets = Items::empty(alloc);
    push_two(alloc, &mut sheets, first, second)?;
    Ok(next_id(sheets.as_slice()))
}

/// Ids go on behind the greatest one, and end with the last number of 32 bits.
#[test]
fn ids(rt: HostRuntime) -> Result<(), Fail> {
    for (first, second, is) in [
        (1, 2, Ok(3)),
        (7, 2, Ok(8)),
        (4294967294, 1, Ok(4294967295)),
        (4294967295, 1, Err(EditError::SheetIds)),
        (1, 4294967295, Err(EditError::SheetIds)),
    ] {
        assert_eq!(rt; id_beside(rt.alloc(), first, second)?, is);
    }
    Ok(())
}
