//! The lines of a sheet's rows, columns and links.

ghost use Rattle.std.specs.Prelude.{◌≡◌, ◌++◌, ◌∷◌, [], codes, OnOk, IsOkUnless};
ghost use Rattle.std.specs.FinMap as fin;
ghost use Rattle.std.specs.Fmt.{signed_decimal};
ghost use Rattle.std.specs.List.{flat_map};
ghost use Rattle.base_values.specs.Places.{IsPlace};
ghost use Rattle.base_values.specs.declared.error.EditError.TheVariants.{NoMemory};
ghost use Rattle.script_dump.specs.Dump.{size_text, own_style_text, attr_line, link_line};

use crate::dump::{flag_text, push_style_bytes};
use crate::text::{push_signed, push_word};
use base_shared::Shared;
use base_styles::Style;
use base_values::{EditError, Position};
use script_lines::{push_escaped, push_reference};
use sheet_grid::{LineAttr, Link, Worksheet};
use std::alloc::{AllocError, Global};
use std::collections::btree_map::Iter;

/// Writes a size in half pixels, and a dash where there is none.
fn push_size(alloc: Global, out: &mut Vec<u8>, size: Option<i32>) -> Result<(), AllocError>
    ensures { OnOk result (out.new.items ≡ out.old.items ++ size_text size) }
{
    match size {
        Some(size) => push_signed(alloc, out, size),
        None => out.extend_from_slice(b"-"),
    }
}

/// Writes the style of a row or a column, and a dash where there is none.
fn push_own_style(
    alloc: Global,
    out: &mut Vec<u8>,
    style: &Option<Shared<Style>>,
) -> Result<(), EditError>
    ensures text { OnOk result (out.new.items ≡ out.old.items ++ own_style_text style.now) }
    ensures memory { IsOkUnless result NoMemory }
{
    match style {
        Some(style) => push_style_bytes(alloc, out, style.get()),
        None => Ok(out.extend_from_slice(b"-")?),
    }
}

/// Writes the word for a row or a column, its number and its size, each with a blank behind it.
fn push_sized(
    alloc: Global,
    out: &mut Vec<u8>,
    word: &str,
    number: i32,
    size: Option<i32>,
) -> Result<(), AllocError>
    ensures { OnOk result (out.new.items ≡ out.old.items ++ (word.now ++ 32 ∷ (signed_decimal number ++ 32 ∷ (size_text size ++ 32 ∷ [])))) }
{
    push_word(out, word.as_bytes())?;
    push_signed(alloc, out, number)?;
    out.push(b' ')?;
    push_size(alloc, out, size)?;
    out.push(b' ')?;
    Ok(())
}

/// Writes the line of a row or a column, behind the word for the two.
fn push_attr(
    alloc: Global,
    out: &mut Vec<u8>,
    word: &str,
    number: i32,
    attr: &LineAttr,
) -> Result<(), EditError>
    ensures text { OnOk result (out.new.items ≡ out.old.items ++ attr_line word.now (number, attr.now)) }
    ensures memory { IsOkUnless result NoMemory }
{
    push_sized(alloc, out, word, number, attr.size)?;
    push_word(out, flag_text(attr.hidden).as_bytes())?;
    push_own_style(alloc, out, &attr.style)?;
    out.push(b'\n')?;
    Ok(())
}

fn push_link(
    alloc: Global,
    out: &mut Vec<u8>,
    place: Position,
    link: &Link,
) -> Result<(), AllocError>
    requires { IsPlace place }
    ensures { OnOk result (out.new.items ≡ out.old.items ++ link_line (place, link.now)) }
{
    out.extend_from_slice(b"link ")?;
    push_reference(alloc, out, place)?;
    out.push(b' ')?;
    push_escaped(out, link.target.as_str().as_bytes())?;
    out.push(b'\n')?;
    Ok(())
}

/// Writes the lines of a sheet's rows or columns, behind the word for the two.
fn push_attrs(
    alloc: Global,
    out: &mut Vec<u8>,
    word: &str,
    attrs: Iter<'_, i32, LineAttr>,
) -> Result<(), EditError>
    ensures text { OnOk result (out.new.items ≡ out.old.items ++ flat_map (attr_line word.now) attrs.entry) }
    ensures memory { IsOkUnless result NoMemory }
{
    for (number, attr) in attrs {
        push_attr(alloc, out, word, *number, attr)?;
    }
    Ok(())
}

/// Writes the lines of a sheet's rows.
pub(crate) fn push_rows(
    alloc: Global,
    out: &mut Vec<u8>,
    sheet: &Worksheet,
) -> Result<(), EditError>
    ensures text { OnOk result (out.new.items ≡ out.old.items ++ flat_map (attr_line (codes "row")) (fin.entries sheet.now.rows)) }
    ensures memory { IsOkUnless result NoMemory }
{
    push_attrs(alloc, out, "row", sheet.rows())
}

/// Writes the lines of a sheet's columns.
pub(crate) fn push_columns(
    alloc: Global,
    out: &mut Vec<u8>,
    sheet: &Worksheet,
) -> Result<(), EditError>
    ensures text { OnOk result (out.new.items ≡ out.old.items ++ flat_map (attr_line (codes "column")) (fin.entries sheet.now.columns)) }
    ensures memory { IsOkUnless result NoMemory }
{
    push_attrs(alloc, out, "column", sheet.columns())
}

/// Writes the lines of a sheet's links.
pub(crate) fn push_links(
    alloc: Global,
    out: &mut Vec<u8>,
    sheet: &Worksheet,
) -> Result<(), EditError>
    ensures text { OnOk result (out.new.items ≡ out.old.items ++ flat_map link_line (fin.entries sheet.now.links)) }
    ensures memory { IsOkUnless result NoMemory }
{
    for (place, link) in sheet.links() {
        push_link(alloc, out, *place, link)?;
    }
    Ok(())
}
