//! The sheets of a workbook, each with its trees renamed or taken back; the one of an id gets another
//! name.

ghost use Rattle.std.specs.Prelude.{◌≡◌, ◌==◌, IfOk, IsOkUnless, if◌then◌else◌};
ghost use Rattle.base_values.specs.declared.EditError.TheVariants.{NoMemory};
ghost use Rattle.sheet_grid.specs.CanonicalCell.{CanonicalCells};
ghost use Rattle.sheet_lines.specs.Sheets.{IsPlacedBook};
ghost use Rattle.book_names.specs.Renaming.{AreCanonicalTrees, ArePlacedTrees, cells_renamed, cells_back, kept_under};
ghost use Rattle.book_names.specs.Renaming.{formattings_renamed, formattings_back, formattings_under};
ghost use Rattle.book_names.specs.Renaming.{book_renamed, book_back};

use crate::by_sheet::{SheetChange, changed_sheets};
use crate::cells::{Renamed, Returned, changed_cells};
use crate::formattings::{renamed_rules, rules_back};
use crate::kept_trees::KeptTrees;
use crate::names::{list_back, renamed_list};
use base_shared::Shared;
use base_values::{EditError, Items, PlaceMap, Text, copy_of};
use defined_names::NameList;
use format_rules::RuleList;
use formula_names::Reach;
use sheet_grid::{Cell, SheetEntries, Workbook, Worksheet};
use std::alloc::Global;

/// A copy of a sheet that holds these cells and these conditional rules in place of its own.
fn with_formulas(
    sheet: &Worksheet,
    cells: PlaceMap<Shared<Cell>>,
    rules: RuleList,
) -> Result<Worksheet, EditError>
    requires { CanonicalCells cells }
    ensures sheet { IfOk result (λ output. output ≡ record sheet.now { cells = cells; formattings = rules }) }
    ensures only { IsOkUnless result NoMemory }
{
    let entries = SheetEntries {
        cells,
        links: copy_of(sheet.link_map())?,
        rows: copy_of(sheet.row_map())?,
        columns: copy_of(sheet.column_map())?,
        merges: copy_of(sheet.merge_list())?,
        formattings: rules,
    };
    sheet.with_entries(entries)
}

/// A copy of a sheet whose formulas are renamed, those of its conditional rules too, as far as the
/// renaming reaches. `NoMemory` alone is an error.
pub fn with_formulas_renamed(
    alloc: Global,
    sheet: &Worksheet,
    reach: Reach,
    old: &str,
    new: &Shared<Text>,
) -> Result<Worksheet, EditError>
    ensures sheet { IfOk result (λ output. output ≡ record sheet.now {
      cells = cells_renamed reach old.now new.now sheet.now.cells;
      formattings = formattings_renamed reach old.now new.now sheet.now.formattings;
    }) }
    ensures only { IsOkUnless result NoMemory }
{
    let change = Renamed {
        reach,
        before: old,
        after: new,
    };
    let cells = changed_cells(alloc, &change, sheet.cell_map())?;
    let rules = renamed_rules(alloc, sheet.conditional_formatting(), reach, old, new)?;
    with_formulas(sheet, cells, rules)
}

/// A copy of a sheet whose formulas and conditional rules are the kept ones, or renamed back without
/// one, as far as the renaming reaches. `NoMemory` alone is an error.
pub fn with_formulas_back(
    alloc: Global,
    sheet: &Worksheet,
    reach: Reach,
    old: &Shared<Text>,
    new: &str,
    kept: &KeptTrees,
) -> Result<Worksheet, EditError>
    requires { AreCanonicalTrees kept.now }
    ensures sheet { IfOk result (λ output. output ≡ record sheet.now {
      cells = cells_back reach old.now new.now (kept_under kept.now sheet.now.id) sheet.now.cells;
      formattings = formattings_back reach old.now new.now (formattings_under kept.now sheet.now.id) sheet.now.formattings;
    }) }
    ensures only { IsOkUnless result NoMemory }
{
    let change = Returned {
        reach,
        before: old,
        after: new,
        kept,
        id: sheet.get_sheet_id(),
    };
    let cells = changed_cells(alloc, &change, sheet.cell_map())?;
    let rules = rules_back(alloc, sheet.conditional_formatting(), &change)?;
    with_formulas(sheet, cells, rules)
}

/// A sheet that has that name where its id is that one.
fn with_name_at(mut sheet: Worksheet, id: u32, name: &str) -> Result<Worksheet, EditError>
    ensures sheet { IfOk result (λ output. output ≡ record sheet { name = if sheet.id == id then name.now else sheet.name }) }
    ensures only { IsOkUnless result NoMemory }
{
    if sheet.get_sheet_id() == id {
        sheet.set_name(name)?;
    }
    Ok(sheet)
}

/// The sheet of an id gets another name, and each formula that names the old one names the new one.
#[derive(Drop)]
struct RenamedSheets<'r> {
    id: u32,
    old: &'r str,
    new: &'r Shared<Text>,
}

impl<'r> SheetChange for RenamedSheets<'r> {
    ghost use Rattle.std.specs.Prelude.{⊤};
    ghost use Rattle.book_names.specs.Renaming.{sheet_renamed};

    ghost Asks = { λ _. ⊤ };

    ghost change = { λ self. sheet_renamed self.id self.old.now self.new.now };

    fn changed(&self, alloc: Global, sheet: &Worksheet) -> Result<Worksheet, EditError> {
        let output = with_formulas_renamed(alloc, sheet, Reach::Sheets, self.old, self.new)?;
        with_name_at(output, self.id, self.new.get().as_str())
    }
}

/// The sheet of an id gets its old name back, and each formula is the kept one, or renamed back without
/// one.
#[derive(Drop)]
struct SheetsBack<'r> {
    id: u32,
    old: &'r Shared<Text>,
    new: &'r str,
    kept: &'r KeptTrees,
}

impl<'r> SheetChange for SheetsBack<'r> {
    ghost use Rattle.book_names.specs.Renaming.{AreCanonicalTrees, sheet_back};

    ghost Asks = { λ self. AreCanonicalTrees self.kept.now };

    ghost change = { λ self. sheet_back self.id self.old.now self.new.now self.kept.now };

    fn changed(&self, alloc: Global, sheet: &Worksheet) -> Result<Worksheet, EditError> {
        let (old, new) = (self.old, self.new);
        let output = with_formulas_back(alloc, sheet, Reach::Sheets, old, new, self.kept)?;
        with_name_at(output, self.id, old.get().as_str())
    }
}

/// The text of a name, to be held once for every tree that names it. `NoMemory` alone is an error.
pub fn shared_name(alloc: Global, name: &str) -> Result<Shared<Text>, EditError>
    ensures name { IfOk result (λ shared. shared ≡ name.now) }
    ensures only { IsOkUnless result NoMemory }
{
    let text = Text::new(String::from_str(alloc, name)?);
    Ok(Shared::new(alloc, text)?)
}

/// A copy of a workbook that has these sheets and defined names in place of its own. `NoMemory` alone is
/// an error.
pub fn with_lists(
    workbook: &Workbook,
    sheets: Items<Worksheet>,
    names: NameList,
) -> Result<Workbook, EditError>
    ensures book { IfOk result (λ output. output ≡ record workbook.now { names = names; worksheets = sheets }) }
    ensures only { IsOkUnless result NoMemory }
{
    let mut output = workbook.with_worksheets(sheets)?;
    output.set_name_list(names);
    Ok(output)
}

/// The workbook whose sheet of an id is renamed: each tree of its sheets, of their conditional rules and
/// of its defined names that names `old` names `new`. `NoMemory` alone is an error.
pub(crate) fn book_renamed(
    alloc: Global,
    workbook: &Workbook,
    id: u32,
    old: &str,
    new: &str,
) -> Result<Workbook, EditError>
    requires { IsPlacedBook workbook.now }
    ensures book { IfOk result (λ output. output ≡ book_renamed id old.now new.now workbook.now) }
    ensures placed { IfOk result IsPlacedBook }
    ensures only { IsOkUnless result NoMemory }
{
    let new = shared_name(alloc, new)?;
    let renamed = RenamedSheets { id, old, new: &new };
    let sheets = changed_sheets(alloc, &renamed, workbook.worksheets())?;
    let names = renamed_list(alloc, workbook.name_list(), old, &new)?;
    with_lists(workbook, sheets, names)
}

/// The workbook whose sheet of an id gets its old name back: each tree and each conditional rule is the
/// kept one, or renamed back without one. `NoMemory` alone is an error.
pub(crate) fn book_back(
    alloc: Global,
    workbook: &Workbook,
    id: u32,
    old: &str,
    new: &str,
    kept: &KeptTrees,
) -> Result<Workbook, EditError>
    requires placed { IsPlacedBook workbook.now }
    requires numbers { AreCanonicalTrees kept.now }
    requires trees { ArePlacedTrees kept.now }
    ensures book { IfOk result (λ output. output ≡ book_back id old.now new.now kept.now workbook.now) }
    ensures placed { IfOk result IsPlacedBook }
    ensures only { IsOkUnless result NoMemory }
{
    let old = shared_name(alloc, old)?;
    let back = SheetsBack {
        id,
        old: &old,
        new,
        kept,
    };
    let sheets = changed_sheets(alloc, &back, workbook.worksheets())?;
    let names = list_back(
        alloc,
        workbook.name_list(),
        &kept.names,
        Reach::Sheets,
        &old,
        new,
    )?;
    with_lists(workbook, sheets, names)
}
