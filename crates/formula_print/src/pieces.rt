ghost use Rattle.std.specs.Prelude.{◌≡◌, ◌++◌, map, flat_map, OnOk, string_bytes};
ghost use Rattle.base_tables.specs.Tables.{lowered};
ghost use Rattle.formula_print.specs.Pieces as spec;

use crate::number::push_number;
use crate::style::{Dialect, Style};
use base_tables::{Function, Locale, push_doubled};
use base_values::{Items, Text};
use formula_tree::{ArrayItem, CompareKind, Infix, Parameter, ProductKind, SumKind};
use std::alloc::AllocError;

/// A text constant.
pub(crate) fn push_text(text: &str, out: &mut String) -> Result<(), AllocError>
    ensures { OnOk result (string_bytes out.new ≡ string_bytes out.old ++ spec.text_constant text.now) }
{
    out.push_str("\"")?;
    push_doubled('"', text, out)?;
    out.push_str("\"")
}

/// The name of a call, with A to Z as small letters.
pub(crate) fn push_lowered(name: &str, out: &mut String) -> Result<(), AllocError>
    ensures { OnOk result (string_bytes out.new ≡ string_bytes out.old ++ lowered name.now) }
{
    let mut small = String::from_str(*out.allocator(), name)?;
    small.make_ascii_lowercase();
    out.push_str(small.as_str())
}

/// The word by which a function is called.
pub(crate) fn function_word(style: Style, function: Function) -> &'static str
    ensures { result.now ≡ spec.function_word style function }
{
    match (style.dialect, function) {
        (Dialect::Excel, Function::Let) => "_xlfn.LET",
        _ => function.name(style.language),
    }
}

/// The word that begins a lambda.
pub(crate) fn lambda_word(dialect: Dialect) -> &'static str
    ensures { result.now ≡ spec.lambda_word dialect }
{
    match dialect {
        Dialect::Plain => "LAMBDA",
        Dialect::Excel => "_xlfn.LAMBDA",
    }
}

/// The function that Excel stores for `x#`.
#[tactic(auto, unfolding(crate::specs::Pieces::spill_word))]
pub(crate) fn spill_word() -> &'static str
    ensures { result.now ≡ spec.spill_word }
{
    "_xlfn.ANCHORARRAY"
}

/// The function that it stores for `@x`.
#[tactic(auto, unfolding(crate::specs::Pieces::single_word))]
pub(crate) fn single_word() -> &'static str
    ensures { result.now ≡ spec.single_word }
{
    "_xlfn.SINGLE"
}

fn compare_sign(kind: CompareKind) -> &'static str
    ensures { result.now ≡ spec.compare_sign kind }
{
    match kind {
        CompareKind::Equal => "=",
        CompareKind::NotEqual => "<>",
        CompareKind::Less => "<",
        CompareKind::LessOrEqual => "<=",
        CompareKind::Greater => ">",
        CompareKind::GreaterOrEqual => ">=",
    }
}

fn sum_sign(kind: SumKind) -> &'static str
    ensures { result.now ≡ spec.sum_sign kind }
{
    match kind {
        SumKind::Add => "+",
        SumKind::Subtract => "-",
    }
}

fn product_sign(kind: ProductKind) -> &'static str
    ensures { result.now ≡ spec.product_sign kind }
{
    match kind {
        ProductKind::Multiply => "*",
        ProductKind::Divide => "/",
    }
}

/// What stands between the operands.
pub(crate) fn infix_sign(operator: Infix) -> &'static str
    ensures { result.now ≡ spec.infix_sign operator }
{
    match operator {
        Infix::Compare(kind) => compare_sign(kind),
        Infix::Concatenate => "&",
        Infix::Sum(kind) => sum_sign(kind),
        Infix::Product(kind) => product_sign(kind),
        Infix::Power => "^",
        Infix::Colon => ":",
    }
}

fn push_item(style: Style, item: &ArrayItem, out: &mut String) -> Result<(), AllocError>
    ensures { OnOk result (string_bytes out.new ≡ string_bytes out.old ++ spec.item_text style item.now) }
{
    match item {
        ArrayItem::Boolean(value) => out.push_str(style.language.boolean(*value)),
        ArrayItem::Number(number) => push_number(out, number, style.locale),
        ArrayItem::Text(text) => push_text(text.as_str(), out),
        ArrayItem::Error(error) => out.push_str(error.text()),
    }
}

/// The items after the first, each after the separator of columns.
#[tactic(auto, using(crate::proofs::Joins::joins))]
fn push_later_items(style: Style, items: &[ArrayItem], out: &mut String) -> Result<(), AllocError>
    ensures { OnOk result (string_bytes out.new ≡ string_bytes out.old ++ flat_map (spec.later_item style) items.now) }
{
    for item in items {
        out.push(style.locale.column_separator())?;
        push_item(style, item, out)?;
    }
    Ok(())
}

#[tactic(auto, using(crate::proofs::Joins::joins))]
fn push_array_line(style: Style, items: &[ArrayItem], out: &mut String) -> Result<(), AllocError>
    ensures { OnOk result (string_bytes out.new ≡ string_bytes out.old ++ spec.line_text style items.now) }
{
    match items {
        [first, later @ ..] => {
            push_item(style, first, out)?;
            push_later_items(style, later, out)
        }
        [] => Ok(()),
    }
}

/// The lines after the first, each after the separator of rows.
#[tactic(auto, using(crate::proofs::Joins::joins))]
fn push_later_lines(
    style: Style,
    lines: &[Items<ArrayItem>],
    out: &mut String,
) -> Result<(), AllocError>
    ensures { OnOk result (string_bytes out.new ≡ string_bytes out.old ++ flat_map (spec.later_line style) lines.now) }
{
    for line in lines {
        out.push(style.locale.row_separator())?;
        push_array_line(style, line.as_slice(), out)?;
    }
    Ok(())
}

fn push_lines(style: Style, lines: &[Items<ArrayItem>], out: &mut String) -> Result<(), AllocError>
    ensures { OnOk result (string_bytes out.new ≡ string_bytes out.old ++ spec.lines_text style lines.now) }
{
    match lines {
        [first, later @ ..] => {
            push_array_line(style, first.as_slice(), out)?;
            push_later_lines(style, later, out)
        }
        [] => Ok(()),
    }
}

/// An array of constants.
pub(crate) fn push_array(
    style: Style,
    lines: &[Items<ArrayItem>],
    out: &mut String,
) -> Result<(), AllocError>
    ensures { OnOk result (string_bytes out.new ≡ string_bytes out.old ++ spec.array_text style lines.now) }
{
    out.push_str("{")?;
    push_lines(style, lines, out)?;
    out.push_str("}")
}

fn push_parameter(parameter: &Parameter, out: &mut String) -> Result<(), AllocError>
    ensures { OnOk result (string_bytes out.new ≡ string_bytes out.old ++ spec.parameter_text parameter.now) }
{
    if parameter.optional {
        out.push_str("[")?;
        out.push_str(parameter.name.as_str())?;
        out.push_str("]")
    } else {
        out.push_str(parameter.name.as_str())
    }
}

/// The parameters of a lambda, each with the separator that follows it.
#[tactic(auto, using(crate::proofs::Joins::joins))]
pub(crate) fn push_parameters(
    locale: Locale,
    parameters: &[Parameter],
    out: &mut String,
) -> Result<(), AllocError>
    ensures { OnOk result (string_bytes out.new ≡ string_bytes out.old ++ flat_map (spec.parameter_part locale) parameters.now) }
{
    for parameter in parameters {
        push_parameter(parameter, out)?;
        out.push(locale.argument_separator())?;
    }
    Ok(())
}
