// Texts that are no formulas.
ghost use Rattle.base_values.specs.Places.{IsPlace};
ghost use Rattle.formula_tree.specs.Context.{context_place};

use crate::{CellReferenceRC, is_parse_error, read_formula};
use base_tables::{Language, Locale};
use base_values::Text;
use std::alloc::Global;
use std::test::Fail;

fn cell_a1(alloc: Global) -> CellReferenceRC
    ensures { IsPlace (context_place result) }
{
    CellReferenceRC {
        sheet: Text::new(String::new(alloc)),
        row: 1,
        column: 1,
    }
}

/// Whether an English text in A1 is a formula.
fn is_formula(alloc: Global, text: &str) -> Result<bool, Fail> {
    let tree = read_formula(alloc, text, &cell_a1(alloc), Locale::En, Language::En)?;
    Ok(!is_parse_error(&tree))
}

/// Texts in A1 that are no formulas.
const OUTSIDE: [&str; 4] = ["LAMBDA()", "LAMBDA(1, 2, 1+2)", "SIN(x)(3)", "1+"];

#[test]
fn texts_outside(rt: HostRuntime) -> Result<(), Fail> {
    for text in OUTSIDE {
        assert!(rt; !is_formula(rt.alloc(), text)?, "{text}");
    }
    Ok(())
}
