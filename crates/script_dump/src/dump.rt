ghost use Rattle.std.specs.Prelude.{◌≡◌, ◌++◌, ◌∷◌, [], codes, decimal, OnOk, IfOk, IsOkUnless};
ghost use Rattle.std.specs.FinMap as fin;
ghost use Rattle.std.specs.Fmt.{signed_decimal};
ghost use Rattle.std.specs.List.{flat_map};
ghost use Rattle.base_values.specs.Places.{IsPlace};
ghost use Rattle.base_values.specs.declared.error.EditError.TheVariants.{NoMemory};
ghost use Rattle.base_styles.specs.DefaultStyle.{default_style};
ghost use Rattle.grid_wire.specs.StyleBytes.{encode_style};
ghost use Rattle.script_lines.specs.Escapes.{escaped};
ghost use Rattle.script_dump.specs.Text.{hex};
ghost use Rattle.script_dump.specs.Dump.{flag_text, state_text, color_text, same_style, sides_text, style_text, content_word, content_text, book_line, sheet_line, sheet_lines, head_lines, dump};
ghost use Rattle.script_dump.specs.Dump.{attr_line, cell_line, link_line, merge_line, rule_line};

use crate::english::push_english;
use crate::lines::{push_columns, push_links, push_rows};
use crate::merges::push_merges;
use crate::names::push_names;
use crate::rules::push_rules;
use crate::text::{push_hex, push_line, push_signed, push_unsigned, push_word};
use crate::theme::push_theme;
use base_shared::Shared;
use base_styles::{Color, RgbColor, Style};
use base_values::{EditError, Position};
use grid_wire::encode_style;
use script_lines::{push_escaped, push_reference};
use sheet_grid::{Cell, Content, SheetState, Workbook, Worksheet};
use std::alloc::{AllocError, Global};

pub(crate) fn flag_text(flag: bool) -> &'static str
    ensures { result.now ≡ flag_text flag }
{
    if flag { "1" } else { "0" }
}

fn state_text(state: SheetState) -> &'static str
    ensures { result.now ≡ state_text state }
{
    match state {
        SheetState::Visible => "visible",
        SheetState::Hidden => "hidden",
        SheetState::VeryHidden => "very-hidden",
    }
}

fn push_color(alloc: Global, out: &mut Vec<u8>, color: Color) -> Result<(), AllocError>
    ensures { OnOk result (out.new.items ≡ out.old.items ++ color_text color) }
{
    match color {
        Color::None => out.extend_from_slice(b"-"),
        Color::Rgb { red, green, blue } => {
            let text = RgbColor::new(red, green, blue).text(alloc)?;
            out.extend_from_slice(text.as_bytes())
        }
        Color::Theme(theme) => out.extend_from_slice(theme.name().as_bytes()),
    }
}

fn is_default(alloc: Global, style: &Style) -> Result<bool, EditError>
    ensures value { IfOk result (λ default. default ≡ same_style style.now default_style) }
    ensures memory { IsOkUnless result NoMemory }
{
    let default = Style::new(alloc)?;
    Ok(*style == default)
}

/// Writes the bytes of a style in hexadecimal.
pub(crate) fn push_style_bytes(
    alloc: Global,
    out: &mut Vec<u8>,
    style: &Style,
) -> Result<(), EditError>
    ensures text { OnOk result (out.new.items ≡ out.old.items ++ hex (encode_style style.now)) }
    ensures memory { IsOkUnless result NoMemory }
{
    let bytes = encode_style(alloc, style)?;
    push_hex(out, bytes.as_slice())?;
    Ok(())
}

fn push_style(alloc: Global, out: &mut Vec<u8>, style: &Shared<Style>) -> Result<(), EditError>
    ensures text { OnOk result (out.new.items ≡ out.old.items ++ style_text style.now) }
    ensures memory { IsOkUnless result NoMemory }
{
    let style = style.get();
    if is_default(alloc, style)? {
        out.extend_from_slice(b"-")?;
        return Ok(());
    }
    push_style_bytes(alloc, out, style)
}

/// Writes the word of an array, and its sides.
fn push_array_word(
    alloc: Global,
    out: &mut Vec<u8>,
    width: i32,
    height: i32,
) -> Result<(), AllocError>
    ensures { OnOk result (out.new.items ≡ out.old.items ++ (codes "array " ++ (sides_text width height ++ codes " "))) }
{
    out.extend_from_slice(b"array ")?;
    push_signed(alloc, out, width)?;
    out.extend_from_slice(b"x")?;
    push_signed(alloc, out, height)?;
    out.extend_from_slice(b" ")
}

/// Writes the word before the text of a content that is not empty.
fn push_content_word(alloc: Global, out: &mut Vec<u8>, content: &Content) -> Result<(), AllocError>
    ensures { OnOk result (out.new.items ≡ out.old.items ++ content_word content.now) }
{
    match content {
        Content::Formula(_) => out.extend_from_slice(b"formula "),
        Content::Dynamic(_) => out.extend_from_slice(b"dynamic "),
        Content::Array { width, height, .. } => push_array_word(alloc, out, *width, *height),
        Content::Empty => out.extend_from_slice(b"value "),
        Content::Number(_) => out.extend_from_slice(b"value "),
        Content::Boolean(_) => out.extend_from_slice(b"value "),
        Content::Error(_) => out.extend_from_slice(b"value "),
        Content::Text(_) => out.extend_from_slice(b"value "),
    }
}

/// Writes a content, whose text is made in `scratch`.
fn push_content(
    out: &mut Vec<u8>,
    scratch: &mut String,
    place: Position,
    content: &Content,
) -> Result<(), EditError>
    ensures text { OnOk result (out.new.items ≡ out.old.items ++ content_text place content.now) }
    ensures memory { IsOkUnless result NoMemory }
{
    if let Content::Empty = content {
        out.extend_from_slice(b"empty")?;
        return Ok(());
    }
    push_content_word(*scratch.allocator(), out, content)?;
    push_english(out, scratch, place, content)
}

fn push_cell_line(
    alloc: Global,
    out: &mut Vec<u8>,
    scratch: &mut String,
    place: Position,
    cell: &Cell,
) -> Result<(), EditError>
    requires { IsPlace place }
    ensures text { OnOk result (out.new.items ≡ out.old.items ++ cell_line (place, cell.now)) }
    ensures memory { IsOkUnless result NoMemory }
{
    out.extend_from_slice(b"cell ")?;
    push_reference(alloc, out, place)?;
    out.push(b' ')?;
    push_style(alloc, out, &cell.style)?;
    out.push(b' ')?;
    push_content(out, scratch, place, &cell.content)?;
    out.push(b'\n')?;
    Ok(())
}

fn push_cell(
    alloc: Global,
    out: &mut Vec<u8>,
    scratch: &mut String,
    place: Position,
    cell: &Shared<Cell>,
) -> Result<(), EditError>
    requires { IsPlace place }
    ensures text { OnOk result (out.new.items ≡ out.old.items ++ cell_line (place, cell.now)) }
    ensures memory { IsOkUnless result NoMemory }
{
    push_cell_line(alloc, out, scratch, place, cell.get())
}

/// Writes the front of a sheet's line, up to its grid lines and a space.
fn push_sheet_front(alloc: Global, out: &mut Vec<u8>, sheet: &Worksheet) -> Result<(), AllocError>
    ensures { OnOk result (out.new.items ≡ out.old.items
        ++ (codes "sheet " ++ (decimal sheet.now.id ++ 32 ∷ (state_text sheet.now.state ++ 32 ∷ (flag_text sheet.now.show_grid_lines ++ 32 ∷ []))))) }
{
    out.extend_from_slice(b"sheet ")?;
    push_unsigned(alloc, out, sheet.get_sheet_id())?;
    out.push(b' ')?;
    push_word(out, state_text(sheet.state()).as_bytes())?;
    push_word(out, flag_text(sheet.show_grid_lines()).as_bytes())
}

/// Writes how many rows and columns are frozen, each with a space.
fn push_frozen(alloc: Global, out: &mut Vec<u8>, sheet: &Worksheet) -> Result<(), AllocError>
    ensures { OnOk result (out.new.items ≡ out.old.items
        ++ (signed_decimal sheet.now.frozen_rows ++ 32 ∷ (signed_decimal sheet.now.frozen_columns ++ 32 ∷ []))) }
{
    push_signed(alloc, out, sheet.frozen_rows())?;
    out.push(b' ')?;
    push_signed(alloc, out, sheet.frozen_columns())?;
    out.push(b' ')?;
    Ok(())
}

/// Writes the end of a sheet's line, from its colour on.
fn push_sheet_end(alloc: Global, out: &mut Vec<u8>, sheet: &Worksheet) -> Result<(), AllocError>
    ensures { OnOk result (out.new.items ≡ out.old.items
        ++ (color_text sheet.now.color ++ 32 ∷ (escaped sheet.now.name ++ 10 ∷ []))) }
{
    push_color(alloc, out, sheet.color())?;
    out.push(b' ')?;
    push_escaped(out, sheet.get_name().as_bytes())?;
    out.push(b'\n')?;
    Ok(())
}

fn push_sheet_line(alloc: Global, out: &mut Vec<u8>, sheet: &Worksheet) -> Result<(), AllocError>
    ensures { OnOk result (out.new.items ≡ out.old.items ++ sheet_line sheet.now) }
{
    push_sheet_front(alloc, out, sheet)?;
    push_frozen(alloc, out, sheet)?;
    push_sheet_end(alloc, out, sheet)
}

fn push_cells(alloc: Global, out: &mut Vec<u8>, sheet: &Worksheet) -> Result<(), EditError>
    ensures text { OnOk result (out.new.items ≡ out.old.items ++ flat_map cell_line (fin.entries sheet.now.cells)) }
    ensures memory { IsOkUnless result NoMemory }
{
    let mut scratch = String::new(alloc);
    for (place, cell) in sheet.cells() {
        push_cell(alloc, out, &mut scratch, *place, cell)?;
    }
    Ok(())
}

/// Writes the line of a sheet, and those of its rows and columns.
fn push_axes(alloc: Global, out: &mut Vec<u8>, sheet: &Worksheet) -> Result<(), EditError>
    ensures text { OnOk result (out.new.items ≡ out.old.items ++ (sheet_line sheet.now
        ++ (flat_map (attr_line (codes "row")) (fin.entries sheet.now.rows) ++ flat_map (attr_line (codes "column")) (fin.entries sheet.now.columns)))) }
    ensures memory { IsOkUnless result NoMemory }
{
    push_sheet_line(alloc, out, sheet)?;
    push_rows(alloc, out, sheet)?;
    push_columns(alloc, out, sheet)
}

/// Writes the lines of a sheet's merges, cells, links and conditional rules.
fn push_places(alloc: Global, out: &mut Vec<u8>, sheet: &Worksheet) -> Result<(), EditError>
    ensures text { OnOk result (out.new.items ≡ out.old.items ++ (flat_map merge_line sheet.now.merges
        ++ (flat_map cell_line (fin.entries sheet.now.cells) ++ (flat_map link_line (fin.entries sheet.now.links) ++ flat_map rule_line sheet.now.formattings)))) }
    ensures memory { IsOkUnless result NoMemory }
{
    push_merges(alloc, out, sheet)?;
    push_cells(alloc, out, sheet)?;
    push_links(alloc, out, sheet)?;
    push_rules(alloc, out, sheet)
}

fn push_sheet(alloc: Global, out: &mut Vec<u8>, sheet: &Worksheet) -> Result<(), EditError>
    ensures text { OnOk result (out.new.items ≡ out.old.items ++ sheet_lines sheet.now) }
    ensures memory { IsOkUnless result NoMemory }
{
    push_axes(alloc, out, sheet)?;
    push_places(alloc, out, sheet)
}

fn push_book_line(out: &mut Vec<u8>, workbook: &Workbook) -> Result<(), AllocError>
    ensures { OnOk result (out.new.items ≡ out.old.items ++ book_line workbook.now) }
{
    out.extend_from_slice(b"book ")?;
    push_word(out, workbook.locale().name().as_bytes())?;
    push_word(out, workbook.zone().name().as_bytes())?;
    push_escaped(out, workbook.name().as_bytes())?;
    out.push(b'\n')?;
    Ok(())
}

/// Writes the lines of a workbook, of its theme and of its defined names.
fn push_head(alloc: Global, out: &mut Vec<u8>, workbook: &Workbook) -> Result<(), EditError>
    ensures text { OnOk result (out.new.items ≡ out.old.items ++ head_lines workbook.now) }
    ensures memory { IsOkUnless result NoMemory }
{
    push_book_line(out, workbook)?;
    push_theme(alloc, out, workbook.theme())?;
    push_names(alloc, out, workbook)
}

/// Writes the printed form of a workbook at the end: a line for the workbook, one for its theme where that is
/// not the default one, a line for each defined name, for each sheet a line and lines for its rows, columns,
/// merges, cells, links and conditional rules, and last a line `end`. Texts are escaped, contents are printed
/// in English, and styles and rules are their bytes in hexadecimal. docs/SCRIPT.md has the lines.
///
/// `NoMemory` alone is an error. A front of the form may then have been written.
#[tactic(auto, unfolding(crate::specs::Dump::dump))]
pub fn push_dump(alloc: Global, out: &mut Vec<u8>, workbook: &Workbook) -> Result<(), EditError>
    ensures text { OnOk result (out.new.items ≡ out.old.items ++ dump workbook.now) }
    ensures memory { IsOkUnless result NoMemory }
{
    push_head(alloc, out, workbook)?;
    for sheet in workbook.worksheets() {
        push_sheet(alloc, out, sheet)?;
    }
    push_line(out, b"end")?;
    Ok(())
}
