ghost use Rattle.std.specs.Prelude.{◌≡◌, IfOk, IsOkUnless, OnOk, ◌++◌, ◌∷◌, string_bytes, encode_utf8_all};
ghost use Rattle.std.specs.List.{list_all};
ghost use Rattle.std.specs.Str.{chars};
ghost use Rattle.std.specs.Char.Unicode.Uppercase.{is_uppercase};
ghost use Rattle.base_values.specs.declared.EditError.TheVariants.{NoMemory};
ghost use Rattle.sheet_progress.specs.Names.{begins_upper, case_of, case_style, raised, in_case, cased};

use crate::characters::characters;
use crate::letters::{Letters, push_letters, raised};
use crate::trim::trimmed;
use base_values::{EditError, Exact};
use std::alloc::{AllocError, Global};

/// The case in which names go on.
#[derive(Clone, Copy, Debug, PartialEq, Eq)]
pub enum CaseStyle {
    /// All letters are capitals.
    Upper,
    /// The first letter is a capital, and the others are as in the locale's table.
    Capital,
    /// All letters are small ones.
    Lower,
}

impl Exact for CaseStyle {
    ghost use Rattle.std.proofs.Common.{rules};
    ghost use Rattle.sheet_progress.specs.laws.ProgressionEquals.{case_style_equals};

    ghost copies = { λ a b h. Prim.search rules };

    ghost equals = { case_style_equals };
}

fn are_uppercase(text: &[char]) -> bool
    ensures { result ≡ list_all is_uppercase text.now }
{
    text.iter().all(|c| c.is_uppercase())
}

fn begins_upper(text: &[char]) -> bool
    ensures { result ≡ begins_upper text.now }
{
    match text {
        [c, ..] => c.is_uppercase(),
        [] => false,
    }
}

fn case_of(text: &[char]) -> CaseStyle
    ensures { result ≡ case_of text.now }
{
    if are_uppercase(text) {
        CaseStyle::Upper
    } else if begins_upper(text) {
        CaseStyle::Capital
    } else {
        CaseStyle::Lower
    }
}

/// The case of a seed, without the dots and spaces at both ends: upper where all characters are
/// uppercase, also where there is none; capital where the first is; else lower.
#[tactic(auto, unfolding(crate::specs::Names::case_style))]
pub fn case_style(alloc: Global, seed: &str) -> Result<CaseStyle, AllocError>
    ensures { IfOk result (λ style. style ≡ case_style seed.now) }
{
    let seed = characters(alloc, seed)?;
    Ok(case_of(trimmed(&seed)))
}

fn push_capital(c: char, rest: &[char], out: &mut String) -> Result<(), AllocError>
    ensures { OnOk result (string_bytes out.new ≡ string_bytes out.old ++ encode_utf8_all (raised c ∷ rest.now)) }
{
    out.push(raised(c))?;
    push_letters(rest, Letters::AsWritten, out)?;
    Ok(())
}

fn push_in_case(text: &[char], style: CaseStyle, out: &mut String) -> Result<(), AllocError>
    ensures { OnOk result (string_bytes out.new ≡ string_bytes out.old ++ encode_utf8_all (in_case style text.now)) }
{
    match style {
        CaseStyle::Upper => push_letters(text, Letters::Raised, out),
        CaseStyle::Capital => match text {
            [c, rest @ ..] => push_capital(*c, rest, out),
            [] => Ok(()),
        },
        CaseStyle::Lower => push_letters(text, Letters::Lowered, out),
    }
}

/// A name in a case.
#[tactic(auto, unfolding(crate::specs::Names::cased))]
pub fn cased(alloc: Global, name: &str, style: CaseStyle) -> Result<String, AllocError>
    ensures { IfOk result (λ text. string_bytes text ≡ cased style name.now) }
{
    let name = characters(alloc, name)?;
    let mut text = String::new(alloc);
    push_in_case(&name, style, &mut text)?;
    Ok(text)
}
