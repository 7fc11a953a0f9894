ghost use Rattle.std.specs.Prelude.{◌≡◌, IfOk, IsOkUnless};
ghost use Rattle.base_values.specs.declared.EditError.TheVariants.{NoMemory};
ghost use Rattle.formula_print.specs.Forms.{localized_text};
ghost use Rattle.sheet_rules.specs.Names.{first_place};
ghost use Rattle.sheet_naming.specs.Listed.{listed_name, listed_names, scope_index};

use base_tables::{Language, Locale};
use base_values::{EditError, Exact, Items, Text, copy_of};
use defined_names::DefinedName;
use formula_print::to_localized_string;
use formula_tree::{CellReferenceRC, Node};
use sheet_grid::{Workbook, sheet_index};
use std::alloc::Global;

/// A defined name as it is listed.
///
/// ```
/// let names = workbook.get_defined_names_with_scope(alloc)?;
/// let first_formula = names.as_slice()[0].formula.as_str();
/// ```
#[derive(Clone, PartialEq, Eq, Drop)]
pub struct ScopedName {
    pub name: Text,
    /// The index of the sheet where alone it is known. None stands for the whole workbook.
    pub scope: Option<u32>,
    /// The text of its formula, as at A1 and without an equals sign.
    pub formula: Text,
}

impl Exact for ScopedName {
    ghost use Rattle.std.proofs.Common.{rules};
    ghost use Rattle.sheet_naming.specs.laws.ListedEquals.{scoped_name_equals};

    ghost copies = { λ a b h. Prim.search rules };

    ghost equals = { scoped_name_equals };
}

/// The index of the sheet of an id, if there is an id and such a sheet.
///
/// `NoMemory` where 32 bits do not hold the index, since no machine holds so many sheets.
fn scope_index(workbook: &Workbook, scope: Option<u32>) -> Result<Option<u32>, EditError>
    ensures index { IfOk result (λ index. index ≡ scope_index workbook.now scope) }
    ensures only { IsOkUnless result NoMemory }
{
    let Some(id) = scope else {
        return Ok(None);
    };
    sheet_index(workbook, id)
}

/// The text of a formula as at A1.
fn formula_text(
    alloc: Global,
    tree: &Node,
    locale: Locale,
    language: Language,
) -> Result<Text, EditError>
    ensures text { IfOk result (λ text. text ≡ localized_text first_place locale language tree.now) }
    ensures only { IsOkUnless result NoMemory }
{
    let context = CellReferenceRC {
        sheet: Text::new(String::new(alloc)),
        row: 1,
        column: 1,
    };
    let text = to_localized_string(alloc, tree, &context, locale, language)?;
    Ok(Text::new(text))
}

fn listed_name(
    alloc: Global,
    workbook: &Workbook,
    name: &DefinedName,
    locale: Locale,
    language: Language,
) -> Result<ScopedName, EditError>
    ensures listed { IfOk result (λ listed. listed ≡ listed_name locale language workbook.now name.now) }
    ensures only { IsOkUnless result NoMemory }
{
    Ok(ScopedName {
        name: copy_of(&name.name)?,
        scope: scope_index(workbook, name.scope)?,
        formula: formula_text(alloc, name.formula.get(), locale, language)?,
    })
}

/// The defined names of a workbook in order, with their formulas in a locale and a language. `NoMemory`
/// alone is an error.
pub fn listed_names(
    alloc: Global,
    workbook: &Workbook,
    locale: Locale,
    language: Language,
) -> Result<Items<ScopedName>, EditError>
    ensures names { IfOk result (λ names. names ≡ listed_names locale language workbook.now) }
    ensures only { IsOkUnless result NoMemory }
{
    let mut list = Items::empty(alloc);
    for name in workbook.defined_names() {
        let listed = listed_name(alloc, workbook, name, locale, language)?;
        list.push(listed)?;
    }
    Ok(list)
}

/// Workbooks that list their defined names.
pub trait DefinedNames {
    ghost use Rattle.std.specs.Prelude.{List};
    ghost use Rattle.sheet_naming.specs.declared.listing.ScopedName.{ScopedName};

    /// The names as definitions speak of them.
    ghost named: { Self → List ScopedName };

    /// The defined names in order, each with the index of the sheet where alone it is known and with its
    /// formula in English. `NoMemory` alone is an error. docs/MODEL.md has the rule.
    fn get_defined_names_with_scope(&self, alloc: Global) -> Result<Items<ScopedName>, EditError>
        ensures names { IfOk result (λ names. names ≡ named self.now) }
        ensures only { IsOkUnless result NoMemory };
}

impl DefinedNames for Workbook {
    ghost use Rattle.sheet_naming.specs.Listed.{names_with_scope};

    ghost named = { names_with_scope };

    fn get_defined_names_with_scope(&self, alloc: Global) -> Result<Items<ScopedName>, EditError> {
        listed_names(alloc, self, Locale::En, Language::En)
    }
}
