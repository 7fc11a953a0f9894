//! The list of the sheets: what they are called, and sheets that come, go and move.

ghost use Rattle.std.specs.Prelude.{◌≡◌, ◌≢◌, ◌<◌, ◌≤◌, length, vec_len, Err, IfOk, OnOk, OnErr, IsOkUnless};
ghost use Rattle.std.specs.List.{insert, remove};
ghost use Rattle.base_values.specs.Answers.{Changes};
ghost use Rattle.base_values.specs.declared.EditError.TheVariants.{NoMemory};
ghost use Rattle.sheet_grid.specs.Book.{ids_of, names_of, sheet_inserted, sheet_removed, sheets_moved, sheet_moved};

use super::Workbook;
use crate::worksheet::Worksheet;
use base_values::{EditError, Items, Text};
use std::alloc::Global;
use std::mem;

fn names_of(alloc: Global, sheets: &[Worksheet]) -> Result<Items<Text>, EditError>
    ensures names { IfOk result (λ names. names ≡ names_of sheets.now) }
    ensures only { IsOkUnless result NoMemory }
{
    let mut names = Items::empty(alloc);
    for sheet in sheets {
        let name = sheet.copied_name()?;
        names.push(name)?;
    }
    Ok(names)
}

fn ids_of(alloc: Global, sheets: &[Worksheet]) -> Result<Items<u32>, EditError>
    ensures ids { IfOk result (λ ids. ids ≡ ids_of sheets.now) }
    ensures only { IsOkUnless result NoMemory }
{
    let ids: Vec<u32> = sheets
        .iter()
        .map(|sheet| sheet.get_sheet_id())
        .collect(alloc)?;
    Ok(Items::new(ids))
}

/// The sheets, taken out of a workbook.
fn taken(alloc: Global, sheets: &mut Items<Worksheet>) -> Vec<Worksheet>
    ensures items { result.items ≡ sheets.old }
    ensures len { vec_len result ≡ length sheets.old }
{
    let list = mem::replace(sheets, Items::empty(alloc)).into_vec();
    // For the proof alone: the length of the list.
    let _ = list.as_slice();
    list
}

fn insert_sheet(
    alloc: Global,
    sheets: &mut Items<Worksheet>,
    at: usize,
    sheet: Worksheet,
) -> Result<(), EditError>
    requires { at ≤ length sheets.old }
    ensures ok { OnOk result (sheets.new ≡ insert sheets.old at sheet) }
    ensures err { OnErr result (sheets.new ≡ sheets.old) }
    ensures only { IsOkUnless result NoMemory }
{
    let mut list = taken(alloc, sheets);
    let put = list.insert(at, sheet);
    *sheets = Items::new(list);
    put?;
    Ok(())
}

fn remove_sheet(alloc: Global, sheets: &mut Items<Worksheet>, at: usize)
    requires { at < length sheets.old }
    ensures { sheets.new ≡ remove sheets.old at }
{
    let mut list = taken(alloc, sheets);
    let _sheet = list.remove(at);
    *sheets = Items::new(list);
}

/// Takes an item of a list from one index to another. There is room for as many as there are, so it
/// goes back in without a growth.
fn move_item(list: &mut Vec<Worksheet>, from: usize, to: usize) -> Result<(), EditError>
    requires from { from < vec_len list.old }
    requires to { to < vec_len list.old }
    requires len { vec_len list.old ≡ length list.old.items }
    ensures ok { OnOk result (list.new.items ≡ sheets_moved list.old.items from to) }
    ensures err { OnErr result (list.new.items ≡ list.old.items) }
    ensures only { IsOkUnless result NoMemory }
{
    list.reserve(0)?;
    let sheet = list.remove(from);
    let _put = list.insert(to, sheet);
    Ok(())
}

fn move_sheet(
    alloc: Global,
    sheets: &mut Items<Worksheet>,
    from: usize,
    to: usize,
) -> Result<(), EditError>
    requires from { from < length sheets.old }
    requires to { to < length sheets.old }
    ensures ok { OnOk result (sheets.new ≡ sheets_moved sheets.old from to) }
    ensures err { OnErr result (sheets.new ≡ sheets.old) }
    ensures only { IsOkUnless result NoMemory }
{
    let mut list = taken(alloc, sheets);
    let moved = move_item(&mut list, from, to);
    *sheets = Items::new(list);
    moved
}

impl Workbook {
    /// The names of the sheets in order. `NoMemory` alone is an error.
    pub fn get_worksheet_names(&self) -> Result<Items<Text>, EditError>
        ensures names { IfOk result (λ names. names ≡ names_of self.now.worksheets) }
        ensures only { IsOkUnless result NoMemory }
    {
        names_of(self.name.allocator(), self.worksheets.as_slice())
    }

    /// The ids of the sheets in order. `NoMemory` alone is an error.
    pub fn get_worksheet_ids(&self) -> Result<Items<u32>, EditError>
        ensures ids { IfOk result (λ ids. ids ≡ ids_of self.now.worksheets) }
        ensures only { IsOkUnless result NoMemory }
    {
        ids_of(self.name.allocator(), self.worksheets.as_slice())
    }

    /// Puts a sheet at an index, before the one there, or behind the last one. It may be any: it is not
    /// asked whether its id and its name are free.
    ///
    /// `InvalidSheet` where the index is above the number of the sheets.
    pub fn insert_worksheet(&mut self, index: u32, sheet: Worksheet) -> Result<(), EditError>
        ensures { Changes result self.old self.new (sheet_inserted self.old index sheet) }
    {
        let at = index as usize;
        if at > self.worksheets.len() {
            return Err(EditError::InvalidSheet);
        }
        insert_sheet(self.name.allocator(), &mut self.worksheets, at, sheet)
    }

    /// Takes the sheet at an index away. It may be the only one. It takes no memory.
    ///
    /// `InvalidSheet` where there is no such sheet.
    pub fn remove_worksheet(&mut self, sheet: u32) -> Result<(), EditError>
        ensures removed { Changes result self.old self.new (sheet_removed self.old sheet) }
        ensures sure { result ≢ Err NoMemory }
    {
        let at = sheet as usize;
        if at >= self.worksheets.len() {
            return Err(EditError::InvalidSheet);
        }
        remove_sheet(self.name.allocator(), &mut self.worksheets, at);
        Ok(())
    }

    /// Takes the sheet at an index to exactly that other index. The sheets between stand one index
    /// further on, or further back.
    ///
    /// `InvalidSheet` where one of the two is not below the number of the sheets.
    pub fn move_worksheet(&mut self, from: usize, to: usize) -> Result<(), EditError>
        ensures { Changes result self.old self.new (sheet_moved self.old from to) }
    {
        let count = self.worksheets.len();
        if from >= count || to >= count {
            return Err(EditError::InvalidSheet);
        }
        move_sheet(self.name.allocator(), &mut self.worksheets, from, to)
    }
}
