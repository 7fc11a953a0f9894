//! The codes of operators that have one byte, and functions by theirs.

ghost use Rattle.std.specs.Prelude.{◌≡◌};
ghost use Rattle.base_values.specs.Answers.{Answers, map_ok, ok_or};
ghost use Rattle.base_values.specs.declared.EditError.TheVariants.{ParseDiffs};
ghost use Rattle.base_wire.specs.laws.Reading.{decoded};
ghost use Rattle.formula_wire.specs.PartBytes.{compare_code, product_code, sum_code, unary_code};
ghost use Rattle.formula_wire.specs.laws.Reading.{compare_at, comparisons, function_at, product_at, products, sum_at, sums, unaries, unary_at};

use base_tables::Function;
use base_values::EditError;
use base_wire::read;
use formula_tree::{CompareKind, ProductKind, SumKind, UnaryKind};
use std::alloc::Global;

pub(crate) fn compare_code(kind: CompareKind) -> u8
    ensures { result ≡ compare_code kind }
{
    match kind {
        CompareKind::Equal => 0,
        CompareKind::NotEqual => 1,
        CompareKind::Less => 2,
        CompareKind::LessOrEqual => 3,
        CompareKind::Greater => 4,
        CompareKind::GreaterOrEqual => 5,
    }
}

fn compare_of(code: u8) -> Result<CompareKind, EditError>
    ensures { result ≡ ok_or ParseDiffs (decoded compare_code comparisons code) }
{
    match code {
        0 => Ok(CompareKind::Equal),
        1 => Ok(CompareKind::NotEqual),
        2 => Ok(CompareKind::Less),
        3 => Ok(CompareKind::LessOrEqual),
        4 => Ok(CompareKind::Greater),
        5 => Ok(CompareKind::GreaterOrEqual),
        _ => Err(EditError::ParseDiffs),
    }
}

pub(crate) fn compare_at(alloc: Global, bytes: &[u8]) -> Result<(CompareKind, &[u8]), EditError>
    ensures { Answers (map_ok (λ x. (x.0, x.1.now)) result) (compare_at bytes.now) }
{
    let (code, rest) = read::<u8>(alloc, &(), bytes)?;
    let kind = compare_of(code)?;
    Ok((kind, rest))
}

pub(crate) fn sum_code(kind: SumKind) -> u8
    ensures { result ≡ sum_code kind }
{
    match kind {
        SumKind::Add => 0,
        SumKind::Subtract => 1,
    }
}

fn sum_of(code: u8) -> Result<SumKind, EditError>
    ensures { result ≡ ok_or ParseDiffs (decoded sum_code sums code) }
{
    match code {
        0 => Ok(SumKind::Add),
        1 => Ok(SumKind::Subtract),
        _ => Err(EditError::ParseDiffs),
    }
}

pub(crate) fn sum_at(alloc: Global, bytes: &[u8]) -> Result<(SumKind, &[u8]), EditError>
    ensures { Answers (map_ok (λ x. (x.0, x.1.now)) result) (sum_at bytes.now) }
{
    let (code, rest) = read::<u8>(alloc, &(), bytes)?;
    let kind = sum_of(code)?;
    Ok((kind, rest))
}

pub(crate) fn product_code(kind: ProductKind) -> u8
    ensures { result ≡ product_code kind }
{
    match kind {
        ProductKind::Multiply => 0,
        ProductKind::Divide => 1,
    }
}

fn product_of(code: u8) -> Result<ProductKind, EditError>
    ensures { result ≡ ok_or ParseDiffs (decoded product_code products code) }
{
    match code {
        0 => Ok(ProductKind::Multiply),
        1 => Ok(ProductKind::Divide),
        _ => Err(EditError::ParseDiffs),
    }
}

pub(crate) fn product_at(alloc: Global, bytes: &[u8]) -> Result<(ProductKind, &[u8]), EditError>
    ensures { Answers (map_ok (λ x. (x.0, x.1.now)) result) (product_at bytes.now) }
{
    let (code, rest) = read::<u8>(alloc, &(), bytes)?;
    let kind = product_of(code)?;
    Ok((kind, rest))
}

pub(crate) fn unary_code(kind: UnaryKind) -> u8
    ensures { result ≡ unary_code kind }
{
    match kind {
        UnaryKind::Minus => 0,
        UnaryKind::Percent => 1,
    }
}

fn unary_of(code: u8) -> Result<UnaryKind, EditError>
    ensures { result ≡ ok_or ParseDiffs (decoded unary_code unaries code) }
{
    match code {
        0 => Ok(UnaryKind::Minus),
        1 => Ok(UnaryKind::Percent),
        _ => Err(EditError::ParseDiffs),
    }
}

pub(crate) fn unary_at(alloc: Global, bytes: &[u8]) -> Result<(UnaryKind, &[u8]), EditError>
    ensures { Answers (map_ok (λ x. (x.0, x.1.now)) result) (unary_at bytes.now) }
{
    let (code, rest) = read::<u8>(alloc, &(), bytes)?;
    let kind = unary_of(code)?;
    Ok((kind, rest))
}

pub(crate) fn function_at(alloc: Global, bytes: &[u8]) -> Result<(Function, &[u8]), EditError>
    ensures { Answers (map_ok (λ x. (x.0, x.1.now)) result) (function_at bytes.now) }
{
    let (code, rest) = read::<u8>(alloc, &(), bytes)?;
    match Function::from_code(code) {
        Some(function) => Ok((function, rest)),
        None => Err(EditError::ParseDiffs),
    }
}
