ghost use Rattle.std.specs.Prelude.{◌≡◌, ◌↔◌, IsTrue, nat_eq};
ghost use Rattle.ucd_case.specs.CaseFolding.{simple_fold};
ghost use Rattle.base_tables.specs.Folding.{SameFolded, same_folded};

use ucd_case::simple_fold;

fn fold_alike(c: char, d: char) -> bool
    ensures { result ≡ nat_eq (simple_fold c) (simple_fold d) }
{
    simple_fold(c) == simple_fold(d)
}

fn same_characters(a: &str, b: &str) -> bool
    ensures { result ≡ same_folded a.now b.now }
{
    let mut left = a.chars();
    let mut right = b.chars();
    while let Some(c) = left.next() {
        match right.next() {
            Some(d) if fold_alike(c, d) => {}
            _ => return false,
        }
    }
    match right.next() {
        Some(_) => false,
        None => true,
    }
}

/// Whether two names are equal: character by character, after simple case folding of each.
pub fn same_by_folding(a: &str, b: &str) -> bool
    ensures value { result ≡ same_folded a.now b.now }
    ensures same { IsTrue result ↔ SameFolded a.now b.now }
{
    same_characters(a, b)
}
