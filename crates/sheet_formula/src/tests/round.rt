// Normal trees read back as they were printed.
mod drawn;

ghost use Rattle.base_values.specs.Places.{IsPlace};
ghost use Rattle.formula_tree.specs.Context.{context_place};

use crate::{CellReferenceRC, Node, read_formula, to_english_string, to_localized_string};
use base_tables::{Language, Locale};
use base_values::{EditError, Text};
use drawn::{Drawer, PLACE};
use std::alloc::Global;
use std::test::Fail;

const COUNTRIES: [(Locale, Language); 4] = [
    (Locale::En, Language::En),
    (Locale::De, Language::De),
    (Locale::Fr, Language::Fr),
    (Locale::Es, Language::Es),
];

fn cell(alloc: Global) -> CellReferenceRC
    ensures { IsPlace (context_place result) }
{
    CellReferenceRC {
        sheet: Text::new(String::new(alloc)),
        row: PLACE.row,
        column: PLACE.column,
    }
}

fn english(alloc: Global, tree: &Node) -> Result<String, EditError> {
    to_english_string(alloc, tree, &cell(alloc))
}

/// The tree that the text of a tree is read as, in the same cell.
fn read_back(
    alloc: Global,
    tree: &Node,
    locale: Locale,
    language: Language,
) -> Result<Node, EditError> {
    let context = cell(alloc);
    let text = to_localized_string(alloc, tree, &context, locale, language)?;
    read_formula(alloc, text.as_str(), &context, locale, language)
}

fn reads_back_everywhere(alloc: Global, tree: &Node) -> Result<bool, EditError> {
    for (locale, language) in COUNTRIES {
        if read_back(alloc, tree, locale, language)? != *tree {
            return Ok(false);
        }
    }
    Ok(true)
}

#[test]
fn drawn_trees_read_back(rt: HostRuntime) -> Result<(), Fail> {
    let alloc = rt.alloc();
    let mut drawer = Drawer::new(alloc, 1);
    for _ in 0..300 {
        let tree = drawer.tree()?;
        let text = english(alloc, &tree)?;
        assert!(rt; reads_back_everywhere(alloc, &tree)?, "{text}");
    }
    Ok(())
}
