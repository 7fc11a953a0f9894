//! The lines of a workbook's defined names.

ghost use Rattle.std.specs.Prelude.{◌≡◌, ◌++◌, ◌∷◌, [], codes, OnOk, IsOkUnless};
ghost use Rattle.std.specs.List.{flat_map};
ghost use Rattle.base_values.specs.declared.error.EditError.TheVariants.{NoMemory};
ghost use Rattle.script_lines.specs.Escapes.{escaped};
ghost use Rattle.script_dump.specs.Dump.{meaning_text, name_line, scope_text};

use crate::english::push_english;
use crate::text::push_unsigned;
use base_values::{EditError, Position, copy_of};
use defined_names::DefinedName;
use script_lines::push_escaped;
use sheet_grid::{Content, Workbook};
use std::alloc::{AllocError, Global};

/// Writes the id of the sheet where alone a name is known, and a dash where that is the whole workbook.
fn push_scope(alloc: Global, out: &mut Vec<u8>, scope: Option<u32>) -> Result<(), AllocError>
    ensures { OnOk result (out.new.items ≡ out.old.items ++ scope_text scope) }
{
    match scope {
        Some(id) => push_unsigned(alloc, out, id),
        None => out.extend_from_slice(b"-"),
    }
}

/// Writes what a name stands for, which is printed as at A1. Its text is made in `scratch`.
fn push_meaning(
    out: &mut Vec<u8>,
    scratch: &mut String,
    name: &DefinedName,
) -> Result<(), EditError>
    ensures text { OnOk result (out.new.items ≡ out.old.items ++ meaning_text name.now) }
    ensures memory { IsOkUnless result NoMemory }
{
    let content = Content::Formula(copy_of(&name.formula)?);
    push_english(out, scratch, Position { row: 1, column: 1 }, &content)
}

/// Writes the word for a name, its scope and itself, each with a space.
fn push_name_front(alloc: Global, out: &mut Vec<u8>, name: &DefinedName) -> Result<(), AllocError>
    ensures { OnOk result (out.new.items ≡ out.old.items
        ++ (codes "name " ++ (scope_text name.now.scope ++ 32 ∷ (escaped name.now.name ++ 32 ∷ [])))) }
{
    out.extend_from_slice(b"name ")?;
    push_scope(alloc, out, name.scope)?;
    out.push(b' ')?;
    push_escaped(out, name.name.as_str().as_bytes())?;
    out.push(b' ')?;
    Ok(())
}

fn push_name(
    alloc: Global,
    out: &mut Vec<u8>,
    scratch: &mut String,
    name: &DefinedName,
) -> Result<(), EditError>
    ensures text { OnOk result (out.new.items ≡ out.old.items ++ name_line name.now) }
    ensures memory { IsOkUnless result NoMemory }
{
    push_name_front(alloc, out, name)?;
    push_meaning(out, scratch, name)?;
    out.push(b'\n')?;
    Ok(())
}

/// Writes the lines of a workbook's defined names.
pub(crate) fn push_names(
    alloc: Global,
    out: &mut Vec<u8>,
    workbook: &Workbook,
) -> Result<(), EditError>
    ensures text { OnOk result (out.new.items ≡ out.old.items ++ flat_map name_line workbook.now.names) }
    ensures memory { IsOkUnless result NoMemory }
{
    let mut scratch = String::new(alloc);
    for name in workbook.defined_names() {
        push_name(alloc, out, &mut scratch, name)?;
    }
    Ok(())
}
