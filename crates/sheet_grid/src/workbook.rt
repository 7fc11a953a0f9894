ghost use Rattle.std.specs.Prelude.{◌≡◌, ◌≢◌, None, Err, IfOk, IfSome, IsOkUnless};
ghost use Rattle.std.specs.Borrow.{sem, LendsIfOk};
ghost use Rattle.base_values.specs.Answers.{Changes, map_ok};
ghost use Rattle.base_values.specs.declared.EditError.TheVariants.{NoMemory, InvalidSheet};
ghost use Rattle.defined_names.specs.Names.{AreCanonicalNames};
ghost use Rattle.sheet_grid.specs.Book.{Book, new_book, index_of, sheet_at, sheet_edit, edit_by_id, with_sheet};
ghost use Rattle.sheet_grid.specs.CanonicalCell.{IsCanonicalCell};
ghost use Rattle.sheet_grid.specs.Sheet.{cell_put};
ghost use Rattle.sheet_grid.specs.contracts.workbook.Workbook.{the_row};
ghost use Rattle.sheet_grid.specs.contracts.worksheet.Worksheet.{the_row as sheet_row};

mod settings;
mod sheets;

use crate::cell::Cell;
use crate::worksheet::Worksheet;
use base_shared::Shared;
use base_styles::Theme;
use base_tables::{Locale, Zone};
use base_values::{EditError, Exact, Items, Text, copy_of};
use defined_names::{DefinedName, NameList};
use std::alloc::{AllocError, Global};
use std::marker::Model;

/// A workbook: its settings, its defined names and its sheets in order.
#[derive(PartialEq, Eq, Drop)]
pub struct Workbook {
    name: Text,
    locale: Locale,
    zone: Zone,
    theme: Theme,
    names: NameList,
    worksheets: Items<Worksheet>,
}

impl Model for Workbook {
    ghost use Rattle.std.specs.Coded.{codes};
    ghost use Rattle.formula_tree.specs.contracts.node.Node as node;
    ghost use Rattle.sheet_grid.specs.Book.{Book};
    ghost use Rattle.sheet_grid.specs.contracts.worksheet.Worksheet as worksheet;

    ghost Value = { Book };

    ghost coded = { Prim.hlevel (codes, node.the_row.coded, worksheet.the_row.coded) };

    ghost view = { λ w. record {
      name = w.name;
      locale = w.locale;
      zone = w.zone;
      theme = w.theme;
      names = w.names;
      worksheets = w.worksheets;
    } };

    ghost inverse = { λ w. record {
      name = w.name;
      locale = w.locale;
      zone = w.zone;
      theme = w.theme;
      names = w.names;
      worksheets = w.worksheets;
    } };
}

impl Workbook {
    /// A workbook of the default theme with one empty sheet, `Sheet1`, of id 1. `NoMemory` alone is an
    /// error.
    pub fn new_empty(
        alloc: Global,
        name: &str,
        locale: Locale,
        zone: Zone,
    ) -> Result<Workbook, EditError>
        ensures output { IfOk result (λ book. book ≡ new_book name.now locale zone) }
        ensures only { IsOkUnless result NoMemory }
    {
        let mut worksheets = Items::empty(alloc);
        worksheets.push(Worksheet::new(alloc, 1, "Sheet1")?)?;
        Ok(Workbook {
            name: Text::new(String::from_str(alloc, name)?),
            locale,
            zone,
            theme: Theme::default(),
            names: NameList::empty(alloc),
            worksheets,
        })
    }

    /// The name of the workbook.
    pub fn name(&self) -> &str
        ensures { result.now ≡ self.now.name }
    {
        self.name.as_str()
    }

    /// The locale in which numbers and lists are written.
    pub fn locale(&self) -> Locale
        ensures { result ≡ self.now.locale }
    {
        self.locale
    }

    /// The time zone of the workbook.
    pub fn zone(&self) -> Zone
        ensures { result ≡ self.now.zone }
    {
        self.zone
    }

    /// The defined names in order.
    pub fn defined_names(&self) -> &[DefinedName]
        ensures names { result.now ≡ self.now.names }
        ensures canonical { AreCanonicalNames result.now }
    {
        self.names.as_slice()
    }

    /// The defined names, as the workbook holds them.
    pub fn name_list(&self) -> &NameList
        ensures { result.now ≡ self.now.names }
    {
        &self.names
    }

    /// Puts these defined names in place of the workbook's own. They may be any: it is not asked
    /// whether they are legal and distinct, and whether their sheets are there. It takes no memory.
    pub fn set_defined_names(&mut self, names: Items<DefinedName>)
        requires { AreCanonicalNames names }
        ensures { self.new ≡ record self.old { names = names } }
    {
        self.names = NameList::new(names);
    }

    /// Puts these defined names in place of the workbook's own, as `set_defined_names` does.
    pub fn set_name_list(&mut self, names: NameList)
        ensures { self.new ≡ record self.old { names = names } }
    {
        self.names = names;
    }

    /// The sheets in order.
    pub fn worksheets(&self) -> &[Worksheet]
        ensures { result.now ≡ self.now.worksheets }
    {
        self.worksheets.as_slice()
    }

    /// A copy of the workbook that has these sheets in place of its own. `NoMemory` alone is an
    /// error.
    pub fn with_worksheets(&self, worksheets: Items<Worksheet>) -> Result<Workbook, EditError>
        ensures book { IfOk result (λ book. book ≡ record self.now { worksheets = worksheets }) }
        ensures only { IsOkUnless result NoMemory }
    {
        Ok(Workbook {
            name: copy_of(&self.name)?,
            locale: self.locale(),
            zone: self.zone,
            theme: self.theme,
            names: copy_of(&self.names)?,
            worksheets,
        })
    }

    /// The sheet at an index, counted from 0. `InvalidSheet` where there is none.
    pub fn worksheet(&self, sheet: u32) -> Result<&Worksheet, EditError>
        ensures { map_ok (λ lent. lent.now) result ≡ sheet_at self.now sheet }
    {
        match self.worksheets.get(sheet as usize) {
            Some(found) => Ok(found),
            None => Err(EditError::InvalidSheet),
        }
    }

    /// The index of the first sheet with an id. It takes no memory.
    pub fn index_of(&self, id: u32) -> Option<usize>
        ensures { result ≡ index_of self.now id }
    {
        self.worksheets
            .as_slice()
            .iter()
            .position(|sheet| sheet.get_sheet_id() == id)
    }

    fn worksheet_at(&mut self, at: usize) -> Result<&mut Worksheet, EditError>
        ensures* writes_back { sem 𝓛 (LendsIfOk the_row sheet_row self.entry result (with_sheet self.old at) self.old) }
        ensures value { map_ok (λ lent. lent.now) result ≡ sheet_at self.old at }
        ensures only { IsOkUnless result InvalidSheet }
    {
        match self.worksheets.get_mut(at) {
            Some(found) => Ok(found),
            None => Err(EditError::InvalidSheet),
        }
    }

    /// The sheet at an index, counted from 0, to be changed; no other part of the workbook
    /// changes. `InvalidSheet` where there is none.
    pub fn worksheet_mut(&mut self, sheet: u32) -> Result<&mut Worksheet, EditError>
        ensures* writes_back { sem 𝓛 (LendsIfOk the_row sheet_row self.entry result (with_sheet self.old sheet) self.old) }
        ensures value { map_ok (λ lent. lent.now) result ≡ sheet_at self.old sheet }
    {
        self.worksheet_at(sheet as usize)
    }

    /// Sets the cell at a row and a column of the sheet at an index, or takes it away.
    ///
    /// `InvalidSheet` where there is no such sheet, else `InvalidRow` where the row is outside the
    /// sheet, else `InvalidColumn` where the column is. To take a cell away needs no memory.
    pub fn put_cell(
        &mut self,
        sheet: u32,
        row: i32,
        column: i32,
        entry: Option<Cell>,
    ) -> Result<(), EditError>
        requires { IfSome entry IsCanonicalCell }
        ensures put { Changes result self.old self.new (sheet_edit self.old sheet (λ old. cell_put old row column entry)) }
        ensures away { entry ≡ None → result ≢ Err NoMemory }
    {
        self.put_cell_at(sheet as usize, row, column, entry)
    }

    /// Sets the cell at a row and a column of the sheet at an index to one that others hold too, or
    /// takes it away.
    ///
    /// The errors are those of `put_cell`. To take a cell away needs no memory.
    pub fn put_shared_cell(
        &mut self,
        sheet: u32,
        row: i32,
        column: i32,
        entry: Option<Shared<Cell>>,
    ) -> Result<(), EditError>
        requires { IfSome entry IsCanonicalCell }
        ensures put { Changes result self.old self.new (sheet_edit self.old sheet (λ old. cell_put old row column entry)) }
        ensures away { entry ≡ None → result ≢ Err NoMemory }
    {
        self.put_shared_cell_at(sheet as usize, row, column, entry)
    }

    /// Sets the cell at a row and a column of the sheet with an id to one that others hold too, or
    /// takes it away.
    ///
    /// The errors are those of `put_cell`. To take a cell away needs no memory.
    pub fn put_shared_cell_by_id(
        &mut self,
        sheet_id: u32,
        row: i32,
        column: i32,
        entry: Option<Shared<Cell>>,
    ) -> Result<(), EditError>
        requires { IfSome entry IsCanonicalCell }
        ensures put { Changes result self.old self.new (edit_by_id self.old sheet_id (λ old. cell_put old row column entry)) }
        ensures away { entry ≡ None → result ≢ Err NoMemory }
    {
        match self.index_of(sheet_id) {
            Some(at) => self.put_shared_cell_at(at, row, column, entry),
            None => Err(EditError::InvalidSheet),
        }
    }

    fn put_cell_at(
        &mut self,
        at: usize,
        row: i32,
        column: i32,
        entry: Option<Cell>,
    ) -> Result<(), EditError>
        requires { IfSome entry IsCanonicalCell }
        ensures put { Changes result self.old self.new (sheet_edit self.old at (λ old. cell_put old row column entry)) }
        ensures away { entry ≡ None → result ≢ Err NoMemory }
    {
        let found = self.worksheet_at(at)?;
        found.put_cell(row, column, entry)
    }

    fn put_shared_cell_at(
        &mut self,
        at: usize,
        row: i32,
        column: i32,
        entry: Option<Shared<Cell>>,
    ) -> Result<(), EditError>
        requires { IfSome entry IsCanonicalCell }
        ensures put { Changes result self.old self.new (sheet_edit self.old at (λ old. cell_put old row column entry)) }
        ensures away { entry ≡ None → result ≢ Err NoMemory }
    {
        let found = self.worksheet_at(at)?;
        found.put_shared_cell(row, column, entry)
    }
}

impl Clone for Workbook {
    ghost is_clone = { λ s r. r ≡ s };

    fn clone(&self) -> Result<Workbook, AllocError> {
        Ok(Workbook {
            name: self.name.clone()?,
            locale: self.locale,
            zone: self.zone,
            theme: self.theme,
            names: self.names.clone()?,
            worksheets: self.worksheets.clone()?,
        })
    }
}

impl Exact for Workbook {
    ghost use Rattle.sheet_grid.specs.laws.SheetEquals.{workbook_equals};

    ghost copies = { λ a b h. h };

    ghost equals = { workbook_equals };
}
