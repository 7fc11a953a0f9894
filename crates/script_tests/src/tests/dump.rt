// Printed workbooks.
ghost use Rattle.base_values.specs.Places.{IsPlace};
ghost use Rattle.format_rules.specs.Canonical.{IsCanonicalFormatting};

use base_axis::MergedCell;
use base_shared::Shared;
use base_styles::{Color, Style, ThemeColor};
use base_tables::{Locale, Zone};
use base_values::{EditError, Items, Position, Text};
use defined_names::{DefinedName, NameList};
use format_rules::{CfRule, ConditionalFormatting, RuleList};
use formula_tree::{Node, has_canonical_numbers};
use script_dump::{english_formula, english_input, push_dump};
use sheet_grid::{Cell, ColumnAttr, Link, RowAttr, SheetState, Workbook, Worksheet};
use std::alloc::Global;
use std::test::Fail;

/// What is put into a new workbook.
#[derive(Clone, Copy)]
enum Piece {
    /// A number at A1, a styled text at AB2 and an empty cell at A3.
    Cells,
    /// A link at B3, a styled row, a high one that is hidden, a wide column and an empty cell at C1.
    Lines,
    /// An array at B4, and the rectangles of `MERGES` as merges.
    Areas,
    /// A formula at C2.
    Formula,
    /// A colour of the sheet.
    Colored(Color),
    /// Two names, and a sheet with a state, a colour, no grid lines and frozen rows.
    Named,
    /// A link at B3, and a rule on the rectangles of `MERGES`.
    Ruled,
}

/// What is put, into a workbook of a name, a locale and a time zone, and what is printed of it then.
const CASES: [(Piece, &str, Locale, Zone, &str); 9] = [
    (
        Piece::Cells,
        "a\nb",
        Locale::De,
        Zone::EuropeBerlin,
        "book de Europe/Berlin a\\nb
sheet 1 visible 1 0 0 - Sheet1
cell A1 - value -1.5
cell AB2 0100000000000014020401ff00ab00000000000000000000000767656e6572616c00 value x\\\\y
cell A3 - empty
end
",
    ),
    // Rows, columns, cells and links, in this order.
    (
        Piece::Lines,
        "book",
        Locale::En,
        Zone::Utc,
        "book en UTC book
sheet 1 visible 1 0 0 - Sheet1
row 2 - 0 000000000000000d000000000000000000000000000767656e6572616c00
row 7 30 1 -
column 16384 129 0 -
cell C1 - empty
link B3 C:\\\\x
end
",
    ),
    (
        Piece::Areas,
        "book",
        Locale::En,
        Zone::Utc,
        "book en UTC book
sheet 1 visible 1 0 0 - Sheet1
merge Z2:AA3
merge A1
merge #REF!
cell B4 - array 3x2 =TRUE
end
",
    ),
    (
        Piece::Formula,
        "w",
        Locale::De,
        Zone::Utc,
        "book de UTC w
sheet 1 visible 1 0 0 - Sheet1
cell C2 - formula =B1+SUM(1.5,$A$2)
end
",
    ),
    (
        Piece::Colored(Color::None),
        "w",
        Locale::En,
        Zone::Utc,
        "book en UTC w\nsheet 1 visible 1 0 0 - Sheet1\nend\n",
    ),
    (
        Piece::Colored(Color::Rgb {
            red: 9,
            green: 171,
            blue: 255,
        }),
        "w",
        Locale::En,
        Zone::Utc,
        "book en UTC w\nsheet 1 visible 1 0 0 #09ABFF Sheet1\nend\n",
    ),
    (
        Piece::Colored(Color::Theme(ThemeColor::FollowedHyperlink)),
        "w",
        Locale::En,
        Zone::Utc,
        "book en UTC w\nsheet 1 visible 1 0 0 theme:11 Sheet1\nend\n",
    ),
    // Names in their order behind the workbook, and then each sheet with its state, its grid lines, its
    // frozen counts and its colour.
    (
        Piece::Named,
        "w",
        Locale::De,
        Zone::Utc,
        "book de UTC w
name - Rate =0.5
name 7 Ende =Sheet1!B2+1
sheet 1 visible 1 0 0 - Sheet1
sheet 7 very-hidden 0 2 0 theme:0 a b
end
",
    ),
    // Rules behind the links, each with its priority, its parts and its bytes.
    (
        Piece::Ruled,
        "w",
        Locale::En,
        Zone::Utc,
        "book en UTC w
sheet 1 visible 1 0 0 - Sheet1
link B3 C:\\\\x
rule 4294967295 Z2:AA3,A1,#REF! 000001000000000000000d000000000000000000000000000767656e6572616c0001
end
",
    ),
];

fn plain_style(alloc: Global) -> Result<Shared<Style>, EditError> {
    let style = Style::new(alloc)?;
    Ok(Shared::new(alloc, style)?)
}

/// A bold style with a size and two colours.
fn bold_style(alloc: Global) -> Result<Style, EditError> {
    let mut bold = Style::new(alloc)?;
    bold.font.b = true;
    bold.font.sz = 20;
    bold.font.color = Color::Theme(ThemeColor::Accent1);
    bold.fill = Color::Rgb {
        red: 255,
        green: 0,
        blue: 171,
    };
    Ok(bold)
}

/// Puts what an English text is read as, in the default style.
fn put_text(
    alloc: Global,
    sheet: &mut Worksheet,
    place: Position,
    text: &str,
) -> Result<(), EditError>
    requires { IsPlace place }
{
    let style = plain_style(alloc)?;
    let content = english_input(alloc, place, text)?;
    sheet.put_cell(place.row, place.column, Some(Cell { content, style }))
}

fn put_bold(alloc: Global, sheet: &mut Worksheet) -> Result<(), EditError> {
    let bold = bold_style(alloc)?;
    sheet.set_cell_with_string(2, 28, "x\\y", &bold)
}

fn put_cells(alloc: Global, sheet: &mut Worksheet) -> Result<(), EditError> {
    sheet.cell_clear_contents(3, 1)?;
    put_bold(alloc, sheet)?;
    put_text(alloc, sheet, Position { row: 1, column: 1 }, "-1.50")
}

fn put_link(alloc: Global, sheet: &mut Worksheet) -> Result<(), EditError> {
    let target = Text::new(String::from_str(alloc, "C:\\x")?);
    sheet.put_link(3, 2, Some(Link { target }))
}

fn put_rows(alloc: Global, sheet: &mut Worksheet) -> Result<(), EditError> {
    let high = RowAttr {
        height: Some(30),
        style: None,
        hidden: true,
    };
    sheet.put_row(7, Some(high))?;
    let style = Some(plain_style(alloc)?);
    sheet.put_row(
        2,
        Some(RowAttr {
            height: None,
            style,
            hidden: false,
        }),
    )
}

fn put_lines(alloc: Global, sheet: &mut Worksheet) -> Result<(), EditError> {
    put_link(alloc, sheet)?;
    put_rows(alloc, sheet)?;
    sheet.cell_clear_contents(1, 3)?;
    let wide = ColumnAttr {
        width: Some(129),
        style: None,
        hidden: false,
    };
    sheet.put_column(16_384, Some(wide))
}

/// Its tree has canonical numbers, which setting it asks.
fn put_array(alloc: Global, sheet: &mut Worksheet) -> Result<(), EditError> {
    let style = plain_style(alloc)?;
    let tree = Node::Boolean(true);
    if has_canonical_numbers(&tree) {
        sheet.set_cell_with_array_formula(4, 2, tree, style.get(), 3, 2)?;
    }
    Ok(())
}

/// Rectangles of four places, of one, and one that goes on behind the last row.
const MERGES: [MergedCell; 3] = [
    MergedCell {
        row: 2,
        column: 26,
        width: 2,
        height: 2,
    },
    MergedCell {
        row: 1,
        column: 1,
        width: 1,
        height: 1,
    },
    MergedCell {
        row: 1_048_576,
        column: 1,
        width: 1,
        height: 2,
    },
];

fn put_areas(alloc: Global, sheet: &mut Worksheet) -> Result<(), EditError> {
    put_array(alloc, sheet)?;
    sheet.set_merged_cells(Items::new(Vec::from_slice(alloc, &MERGES)?));
    Ok(())
}

/// A name for an English formula's text as at A1.
fn name_of(
    alloc: Global,
    name: &str,
    scope: Option<u32>,
    text: &str,
) -> Result<DefinedName, EditError> {
    let tree = english_formula(alloc, Position { row: 1, column: 1 }, text)?;
    Ok(DefinedName {
        name: Text::new(String::from_str(alloc, name)?),
        scope,
        formula: Shared::new(alloc, tree)?,
    })
}

/// Its trees have canonical numbers, which putting them in asks.
fn push_names(alloc: Global, names: &mut NameList) -> Result<(), EditError> {
    for (name, scope, text) in [("Rate", None, "0.50"), ("Ende", Some(7), "=Sheet1!B2+1")] {
        let name = name_of(alloc, name, scope, text)?;
        if has_canonical_numbers(name.formula.get()) {
            names.push(name)?;
        }
    }
    Ok(())
}

fn put_names(alloc: Global, workbook: &mut Workbook) -> Result<(), EditError> {
    let mut names = NameList::empty(alloc);
    push_names(alloc, &mut names)?;
    workbook.set_name_list(names);
    Ok(())
}

fn put_named(alloc: Global, workbook: &mut Workbook) -> Result<(), EditError> {
    put_names(alloc, workbook)?;
    let mut sheet = Worksheet::new(alloc, 7, "a b")?;
    sheet.set_state(SheetState::VeryHidden);
    sheet.set_color(&Color::Theme(ThemeColor::Light1));
    sheet.set_show_grid_lines(false);
    sheet.set_frozen_rows(2)?;
    workbook.insert_worksheet(1, sheet)
}

/// A rule that holds everywhere, on the rectangles of `MERGES`.
fn rule_on_merges(alloc: Global) -> Result<ConditionalFormatting, EditError> {
    let rule = CfRule::Formula {
        formula: Shared::new(alloc, Node::Boolean(true))?,
        style: plain_style(alloc)?,
        stop_if_true: true,
    };
    Ok(ConditionalFormatting {
        parts: Items::new(Vec::from_slice(alloc, &MERGES)?),
        rule,
        priority: 4_294_967_295,
    })
}

/// The list of one rule.
fn alone(alloc: Global, formatting: ConditionalFormatting) -> Result<RuleList, EditError>
    requires { IsCanonicalFormatting formatting }
{
    let mut items = Items::empty(alloc);
    items.push(formatting)?;
    Ok(RuleList::new(items))
}

/// Its tree has canonical numbers, which putting it in asks.
fn put_rule(alloc: Global, sheet: &mut Worksheet) -> Result<(), EditError> {
    let formatting = rule_on_merges(alloc)?;
    if format_rules::has_canonical_numbers(&formatting.rule) {
        sheet.set_conditional_formatting(alone(alloc, formatting)?);
    }
    Ok(())
}

fn put_ruled(alloc: Global, sheet: &mut Worksheet) -> Result<(), EditError> {
    put_link(alloc, sheet)?;
    put_rule(alloc, sheet)
}

fn put(alloc: Global, workbook: &mut Workbook, piece: Piece) -> Result<(), EditError> {
    match piece {
        Piece::Named => put_named(alloc, workbook),
        other => put_on_sheet(alloc, workbook.worksheet_mut(0)?, other),
    }
}

fn put_on_sheet(alloc: Global, sheet: &mut Worksheet, piece: Piece) -> Result<(), EditError> {
    match piece {
        Piece::Cells => put_cells(alloc, sheet),
        Piece::Lines => put_lines(alloc, sheet),
        Piece::Areas => put_areas(alloc, sheet),
        Piece::Formula => {
            let place = Position { row: 2, column: 3 };
            put_text(alloc, sheet, place, "=b1+sum(1.50,$A$2)")
        }
        Piece::Colored(color) => {
            sheet.set_color(&color);
            Ok(())
        }
        Piece::Ruled => put_ruled(alloc, sheet),
        Piece::Named => Ok(()),
    }
}

/// Whether this is printed of a workbook.
fn is_printed(alloc: Global, workbook: &Workbook, expected: &str) -> Result<bool, EditError> {
    let mut out = Vec::new(alloc);
    push_dump(alloc, &mut out, workbook)?;
    Ok(out.as_slice() == expected.as_bytes())
}

fn is_printed_with(
    alloc: Global,
    workbook: &mut Workbook,
    piece: Piece,
    expected: &str,
) -> Result<bool, EditError> {
    put(alloc, workbook, piece)?;
    is_printed(alloc, workbook, expected)
}

fn is_printed_of_new(
    alloc: Global,
    case: (Piece, &str, Locale, Zone, &str),
) -> Result<bool, EditError> {
    let mut workbook = Workbook::new_empty(alloc, case.1, case.2, case.3)?;
    is_printed_with(alloc, &mut workbook, case.0, case.4)
}

#[test]
fn workbooks_are_printed(rt: HostRuntime) -> Result<(), Fail> {
    for (at, case) in CASES.iter().enumerate() {
        assert!(rt; is_printed_of_new(rt.alloc(), *case)?, "case {at}");
    }
    Ok(())
}
