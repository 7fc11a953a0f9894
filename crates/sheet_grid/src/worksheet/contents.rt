//! The contents of cells.

ghost use Rattle.std.specs.Prelude.{◌≡◌, Ok, IfOk, IsTrue};
ghost use Rattle.std.specs.FinMap as fin;
ghost use Rattle.base_values.specs.Answers.{Changes, Returns, map_ok};
ghost use Rattle.base_values.specs.Places.{place_of};
ghost use Rattle.base_decimal.specs.Canonical.{IsCanonical};
ghost use Rattle.formula_tree.specs.Numbers.{has_canonical_numbers};
ghost use Rattle.cell_content.specs.CanonicalContent.{IsCanonicalContent};
ghost use Rattle.cell_content.specs.declared.Content.TheVariants.{Empty, Number, Boolean, Error as ErrorValue, Text as TextValue, Formula, Dynamic, Array};
ghost use Rattle.sheet_grid.specs.Sheet.{cell_styled, content_of, content_put, content_cleared};

use super::Worksheet;
use crate::cell::Cell;
use base_decimal::Decimal;
use base_shared::Shared;
use base_styles::Style;
use base_tables::Error;
use base_values::{EditError, Text, copy_of, place_of};
use cell_content::Content;
use formula_tree::Node;

impl Worksheet {
    /// A copy of a style, to be shared.
    pub(super) fn shared_style(&self, style: &Style) -> Result<Shared<Style>, EditError>
        ensures { Returns result (Ok style.now) }
    {
        Ok(Shared::new(self.name.allocator(), copy_of(style)?)?)
    }

    /// A copy of a style, to be shared with the cell at a row and a column.
    fn shared_style_at(
        &self,
        row: i32,
        column: i32,
        style: &Style,
    ) -> Result<Shared<Style>, EditError>
        ensures { Returns result (map_ok (λ _. style.now) (place_of row column)) }
    {
        let _place = place_of(row, column)?;
        self.shared_style(style)
    }

    /// A tree, to be shared with the cell at a row and a column.
    fn shared_tree_at(&self, row: i32, column: i32, tree: Node) -> Result<Shared<Node>, EditError>
        ensures { Returns result (map_ok (λ _. tree) (place_of row column)) }
    {
        match place_of(row, column) {
            Ok(_) => Ok(Shared::new(self.name.allocator(), tree)?),
            Err(error) => {
                drop(tree);
                Err(error)
            }
        }
    }

    /// A copy of a text, for the cell at a row and a column.
    fn text_at(&self, row: i32, column: i32, value: &str) -> Result<Text, EditError>
        ensures { Returns result (map_ok (λ _. value.now) (place_of row column)) }
    {
        let _place = place_of(row, column)?;
        Ok(Text::new(String::from_str(self.name.allocator(), value)?))
    }

    /// A copy of the content at a row and a column, which is empty where there is no cell.
    fn content_at(&self, row: i32, column: i32) -> Result<Content, EditError>
        ensures content { Returns result (map_ok (λ place. content_of (fin.get self.now.cells place)) (place_of row column)) }
        ensures canonical { IfOk result IsCanonicalContent }
    {
        match self.cell(row, column)? {
            Some(cell) => Ok(cell.content),
            None => Ok(Content::Empty),
        }
    }

    fn put_content(
        &mut self,
        row: i32,
        column: i32,
        content: Content,
        style: &Style,
    ) -> Result<(), EditError>
        requires { IsCanonicalContent content }
        ensures { Changes result self.old self.new (content_put self.old row column content style.now) }
    {
        match self.shared_style_at(row, column, style) {
            Ok(style) => self.put_cell(row, column, Some(Cell { content, style })),
            Err(error) => {
                drop(content);
                Err(error)
            }
        }
    }

    /// Sets the cell at a row and a column to a number with a style.
    ///
    /// `InvalidRow` where the row is outside the sheet, else `InvalidColumn` where the column is.
    pub fn set_cell_with_number(
        &mut self,
        row: i32,
        column: i32,
        value: Decimal,
        style: &Style,
    ) -> Result<(), EditError>
        requires { IsCanonical value }
        ensures { Changes result self.old self.new (content_put self.old row column (Number value) style.now) }
    {
        self.put_content(row, column, Content::Number(value), style)
    }

    /// Sets the cell at a row and a column to a boolean with a style.
    ///
    /// `InvalidRow` where the row is outside the sheet, else `InvalidColumn` where the column is.
    pub fn set_cell_with_boolean(
        &mut self,
        row: i32,
        column: i32,
        value: bool,
        style: &Style,
    ) -> Result<(), EditError>
        ensures { Changes result self.old self.new (content_put self.old row column (Boolean value) style.now) }
    {
        self.put_content(row, column, Content::Boolean(value), style)
    }

    /// Sets the cell at a row and a column to an error with a style.
    ///
    /// `InvalidRow` where the row is outside the sheet, else `InvalidColumn` where the column is.
    pub fn set_cell_with_error(
        &mut self,
        row: i32,
        column: i32,
        value: Error,
        style: &Style,
    ) -> Result<(), EditError>
        ensures { Changes result self.old self.new (content_put self.old row column (ErrorValue value) style.now) }
    {
        self.put_content(row, column, Content::Error(value), style)
    }

    /// Sets the cell at a row and a column to a text with a style.
    ///
    /// `InvalidRow` where the row is outside the sheet, else `InvalidColumn` where the column is.
    pub fn set_cell_with_string(
        &mut self,
        row: i32,
        column: i32,
        value: &str,
        style: &Style,
    ) -> Result<(), EditError>
        ensures { Changes result self.old self.new (content_put self.old row column (TextValue value.now) style.now) }
    {
        let text = self.text_at(row, column, value)?;
        self.put_content(row, column, Content::Text(text), style)
    }

    /// Sets the cell at a row and a column to a formula with a style. The formula may be any tree:
    /// it is not asked whether it fits the place.
    ///
    /// `InvalidRow` where the row is outside the sheet, else `InvalidColumn` where the column is.
    pub fn set_cell_with_formula(
        &mut self,
        row: i32,
        column: i32,
        value: Node,
        style: &Style,
    ) -> Result<(), EditError>
        requires { IsTrue (has_canonical_numbers value) }
        ensures { Changes result self.old self.new (content_put self.old row column (Formula value) style.now) }
    {
        let tree = self.shared_tree_at(row, column, value)?;
        self.put_content(row, column, Content::Formula(tree), style)
    }

    /// Sets the cell at a row and a column to a formula whose value may spill, with a style. The
    /// formula may be any tree: it is not asked whether it fits the place.
    ///
    /// `InvalidRow` where the row is outside the sheet, else `InvalidColumn` where the column is.
    pub fn set_cell_with_dynamic_formula(
        &mut self,
        row: i32,
        column: i32,
        value: Node,
        style: &Style,
    ) -> Result<(), EditError>
        requires { IsTrue (has_canonical_numbers value) }
        ensures { Changes result self.old self.new (content_put self.old row column (Dynamic value) style.now) }
    {
        let tree = self.shared_tree_at(row, column, value)?;
        self.put_content(row, column, Content::Dynamic(tree), style)
    }

    /// Sets the cell at a row and a column to a formula whose values fill a rectangle, so many
    /// columns wide and rows high, with a style. The formula may be any tree, and the sides any
    /// numbers: it is not asked whether they fit the place.
    ///
    /// `InvalidRow` where the row is outside the sheet, else `InvalidColumn` where the column is.
    pub fn set_cell_with_array_formula(
        &mut self,
        row: i32,
        column: i32,
        value: Node,
        style: &Style,
        width: i32,
        height: i32,
    ) -> Result<(), EditError>
        requires { IsTrue (has_canonical_numbers value) }
        ensures { Changes result self.old self.new (content_put self.old row column (Array value width height) style.now) }
    {
        let tree = self.shared_tree_at(row, column, value)?;
        let content = Content::Array {
            tree,
            width,
            height,
        };
        self.put_content(row, column, content, style)
    }

    /// Empties the cell at a row and a column, and keeps the style that the place shows. A place
    /// without a cell gets an empty one.
    ///
    /// `InvalidRow` where the row is outside the sheet, else `InvalidColumn` where the column is.
    pub fn cell_clear_contents(&mut self, row: i32, column: i32) -> Result<(), EditError>
        ensures { Changes result self.old self.new (content_cleared self.old row column) }
    {
        let place = place_of(row, column)?;
        let style = self.style_to_share(place)?;
        let content = Content::Empty;
        self.put_cell(row, column, Some(Cell { content, style }))
    }

    /// Empties the cell at a row and a column, and gives it a style.
    ///
    /// `InvalidRow` where the row is outside the sheet, else `InvalidColumn` where the column is.
    pub fn cell_clear_contents_with_style(
        &mut self,
        row: i32,
        column: i32,
        style: &Style,
    ) -> Result<(), EditError>
        ensures { Changes result self.old self.new (content_put self.old row column Empty style.now) }
    {
        self.put_content(row, column, Content::Empty, style)
    }

    /// Sets the style of the cell at a row and a column, whose content stays. A place without a cell
    /// gets an empty one.
    ///
    /// `InvalidRow` where the row is outside the sheet, else `InvalidColumn` where the column is.
    pub fn set_cell_style(&mut self, row: i32, column: i32, style: &Style) -> Result<(), EditError>
        ensures { Changes result self.old self.new (cell_styled self.old row column style.now) }
    {
        let content = self.content_at(row, column)?;
        self.put_content(row, column, content, style)
    }
}
