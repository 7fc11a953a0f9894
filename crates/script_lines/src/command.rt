use base_axis::MergedCell;
use base_styles::{Color, Theme};
use base_values::Text;

/// A cell that a line names.
#[derive(Clone, Copy, Debug)]
pub struct NamedCell {
    /// The index of its sheet.
    pub sheet: u32,
    pub row: i32,
    pub column: i32,
}

/// A rectangle of cells that a line names.
#[derive(Clone, Copy, Debug)]
pub struct NamedArea {
    /// The index of its sheet.
    pub sheet: u32,
    pub area: MergedCell,
}

/// Rows or columns that a line names.
#[derive(Clone, Copy, Debug)]
pub struct NamedLines {
    /// The index of their sheet.
    pub sheet: u32,
    /// The first of them.
    pub first: i32,
    /// How many they are.
    pub count: i32,
}

/// Rows or columns that a line names, and by how many they are to move.
#[derive(Clone, Copy, Debug)]
pub struct NamedMove {
    /// The index of their sheet.
    pub sheet: u32,
    /// The first of them.
    pub first: i32,
    /// How many they are.
    pub count: i32,
    /// Down or to the right by so many, and up or to the left where it is below 0.
    pub delta: i32,
}

/// Rows or columns that a line names by the first and the last of them.
#[derive(Clone, Copy, Debug)]
pub struct NamedSpan {
    /// The index of their sheet.
    pub sheet: u32,
    pub first: i32,
    pub last: i32,
}

/// Rows or columns that a line names by the first and the last of them, and the size that they are to
/// have.
#[derive(Clone, Copy, Debug)]
pub struct NamedSize {
    /// The index of their sheet.
    pub sheet: u32,
    pub first: i32,
    pub last: i32,
    /// In half pixels.
    pub size: i32,
}

/// A rectangle that a line names, and the row or the column to which it is to be filled.
#[derive(Clone, Copy, Debug)]
pub struct NamedFill {
    /// The index of its sheet.
    pub sheet: u32,
    pub area: MergedCell,
    pub to: i32,
}

/// How many lines of a sheet that a line names are to be frozen.
#[derive(Clone, Copy, Debug)]
pub struct NamedCount {
    /// The index of the sheet.
    pub sheet: u32,
    pub count: i32,
}

/// A sheet that a line names, and where it is to go.
#[derive(Clone, Copy, Debug)]
pub struct NamedSheetMove {
    /// The index of the sheet.
    pub from: u32,
    /// The index that it is to have.
    pub to: u32,
}

/// The colour that a line names for a sheet.
#[derive(Clone, Copy, Debug)]
pub struct NamedColor {
    /// The index of the sheet.
    pub sheet: u32,
    pub color: Color,
}

/// Whether the grid lines of a sheet that a line names are to be drawn.
#[derive(Clone, Copy, Debug)]
pub struct NamedGrid {
    /// The index of the sheet.
    pub sheet: u32,
    pub show: bool,
}

/// A defined name that a line names.
#[derive(Clone, Debug, Drop)]
pub struct NamedName {
    /// The index of the sheet where alone it is known. None stands for the whole workbook.
    pub scope: Option<u32>,
    pub name: Text,
}

/// A defined name that a line names, and what it becomes.
#[derive(Clone, Debug, Drop)]
pub struct NamedUpdate {
    pub old: NamedName,
    pub new: NamedName,
}

/// A rectangle that a line names, and the path of an attribute of styles.
#[derive(Clone, Debug, Drop)]
pub struct NamedPath {
    pub area: NamedArea,
    pub path: Text,
}

/// A conditional rule that a line names.
#[derive(Clone, Copy, Debug)]
pub struct NamedRule {
    /// The index of its sheet.
    pub sheet: u32,
    /// The index of the rule among those of the sheet.
    pub index: u32,
}

/// Two conditional rules of a sheet that a line names.
#[derive(Clone, Copy, Debug)]
pub struct NamedSwap {
    /// The index of their sheet.
    pub sheet: u32,
    /// The index of the one among the rules of the sheet.
    pub index_a: u32,
    /// The index of the other, which may be the same.
    pub index_b: u32,
}

/// Commands that are drawn from a seed.
#[derive(Clone, Copy, Debug)]
pub struct NamedRun {
    pub seed: u64,
    /// How many they are.
    pub count: u32,
}

/// What a line of a script asks for. Rows, columns and counts are those that the line names, and may lie
/// outside every sheet.
#[derive(Debug, Drop)]
pub enum Command {
    /// `set S REF TEXT`: type the text into a cell.
    Set(NamedCell, Text),
    /// `get S REF`: answer the content of a cell.
    Get(NamedCell),
    /// `array S AREA TEXT`: type a formula whose values fill a rectangle.
    Array(NamedArea, Text),
    /// `link S REF TEXT`: give a cell a link with the text as its target.
    Link(NamedCell, Text),
    /// `unlink S REF`: take the link of a cell away.
    Unlink(NamedCell),
    /// `merge S AREA`: show a rectangle as one cell.
    Merge(NamedArea),
    /// `unmerge S REF`: dissolve the merge that holds a cell.
    Unmerge(NamedCell),
    /// `insert-rows S N N`: insert as many empty rows as the count before a row.
    InsertRows(NamedLines),
    /// `insert-columns S N N`: insert as many empty columns as the count before a column.
    InsertColumns(NamedLines),
    /// `delete-rows S N N`: delete as many rows as the count from a row on.
    DeleteRows(NamedLines),
    /// `delete-columns S N N`: delete as many columns as the count from a column on.
    DeleteColumns(NamedLines),
    /// `move-rows S N N N`: move rows, as many as the count from a row on.
    MoveRows(NamedMove),
    /// `move-columns S N N N`: move columns, as many as the count from a column on.
    MoveColumns(NamedMove),
    /// `width S FIRST LAST N`: give columns a width.
    Width(NamedSize),
    /// `height S FIRST LAST N`: give rows a height.
    Height(NamedSize),
    /// `hide-rows S FIRST LAST`: hide rows.
    HideRows(NamedSpan),
    /// `show-rows S FIRST LAST`: show rows again.
    ShowRows(NamedSpan),
    /// `hide-columns S FIRST LAST`: hide columns.
    HideColumns(NamedSpan),
    /// `show-columns S FIRST LAST`: show columns again.
    ShowColumns(NamedSpan),
    /// `freeze-rows S N`: freeze rows at the top of a sheet.
    FreezeRows(NamedCount),
    /// `freeze-columns S N`: freeze columns at the left of a sheet.
    FreezeColumns(NamedCount),
    /// `fill-rows S AREA N`: fill the rows from a rectangle to a row.
    FillRows(NamedFill),
    /// `fill-columns S AREA N`: fill the columns from a rectangle to a column.
    FillColumns(NamedFill),
    /// `new-sheet`: put an empty sheet behind the last one.
    NewSheet,
    /// `duplicate-sheet S`: put a copy of a sheet behind it.
    DuplicateSheet(u32),
    /// `delete-sheet S`: take a sheet away.
    DeleteSheet(u32),
    /// `move-sheet S S`: take a sheet to another index.
    MoveSheet(NamedSheetMove),
    /// `rename-sheet S TEXT`: give a sheet another name.
    RenameSheet(u32, Text),
    /// `hide-sheet S`: hide a sheet.
    HideSheet(u32),
    /// `unhide-sheet S`: show a sheet again.
    UnhideSheet(u32),
    /// `color S COLOUR`: colour the tab of a sheet.
    SheetColor(NamedColor),
    /// `grid S 0` or `grid S 1`: draw the grid lines of a sheet or not.
    GridLines(NamedGrid),
    /// `name SCOPE NAME TEXT`: define a name.
    Name(NamedName, Text),
    /// `name-update SCOPE NAME SCOPE NAME TEXT`: give a defined name another scope, name and formula.
    NameUpdate(NamedUpdate, Text),
    /// `name-delete SCOPE NAME`: take a defined name away.
    NameDelete(NamedName),
    /// `title TEXT`: name the workbook.
    Title(Text),
    /// `theme` and twelve `#RRGGBB`: give the workbook other theme colours.
    ThemeColors(Theme),
    /// `locale WORD`: give the workbook another locale.
    Locale(Text),
    /// `zone WORD`: give the workbook another time zone.
    Zone(Text),
    /// `language WORD`: show the workbook in another language.
    Language(Text),
    /// `undo`: take back the last edit.
    Undo,
    /// `redo`: do again what was taken back last.
    Redo,
    /// `sync`: send what was edited since the last time.
    Sync,
    /// `show`: print the workbook.
    Show,
    /// `make SEED COUNT`: run commands that are drawn from a seed, and answer how many were refused.
    Make(NamedRun),
    /// `style S AREA PATH TEXT`: give an attribute of styles a value.
    Style(NamedPath, Text),
    /// `clear S AREA`: take cells and links away.
    Clear(NamedArea),
    /// `clear-contents S AREA`: take contents and links away.
    ClearContents(NamedArea),
    /// `clear-formatting S AREA`: take styles away.
    ClearFormatting(NamedArea),
    /// `rule S AREA TEXT`: add a conditional rule with the text as its formula.
    Rule(NamedArea, Text),
    /// `rule-delete S INDEX`: take a conditional rule away.
    RuleDelete(NamedRule),
    /// `rule-swap S INDEX INDEX`: exchange the priorities of two conditional rules.
    RuleSwap(NamedSwap),
}
