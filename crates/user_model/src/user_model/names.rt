//! Defined names that a user adds, changes, deletes and lists.

ghost use Rattle.std.specs.Prelude.{◌≡◌, IfErr, IfOk, IsOk, IsOkUnless, OnOk, OnErr, pos, true};
ghost use Rattle.base_values.specs.Answers.{Answers};
ghost use Rattle.base_values.specs.declared.EditError.TheVariants.{NoMemory};
ghost use Rattle.formula_tree.specs.Numbers.{has_canonical_numbers};
ghost use Rattle.name_edits.specs.NameEdits.{name_goes, update_goes};
ghost use Rattle.name_edits.specs.NameEdits.NameEdit.{Add, Remove, Update};
ghost use Rattle.sheet_naming.specs.Listed.{listed_names};
ghost use Rattle.edit_plans.specs.Edits.Edit.{ChangeNames};
ghost use Rattle.open_book.specs.Machine.{edit_of};
ghost use Rattle.user_model.specs.Reading.{formula_typed};
ghost use Rattle.open_book.specs.Stands.{OnStates, Steps, MovesOrNoMemory};
ghost use Rattle.user_model.specs.Typing.{name_tested, name_typed, update_typed};
ghost use Rattle.open_book.specs.Values.{IsMade};

use crate::reading::read_tree_at;
use crate::user_model::UserModel;
use base_shared::Shared;
use base_values::{EditError, Items, Position};
use edit_plans::{plan_changed_name, plan_new_name, plan_removed_name, sheet_edits_go_both_ways};
use formula_tree::Node;
use name_edits::{is_name_formula, name_goes, update_goes};
use open_book::Recalc;
use sheet_naming::{ScopedName, listed_names};

impl<R: Recalc + Drop> UserModel<R> {
    /// The formula of a defined name that a text is read as, at A1.
    fn read_name_formula(&self, text: &str) -> Result<Shared<Node>, EditError>
        ensures value { IfOk result (λ tree. tree ≡ formula_typed self.now.document.book self.now.document.language (pos 1) (pos 1) text.now) }
        ensures canonical { IfOk result (λ tree. has_canonical_numbers tree ≡ true) }
        ensures memory { IsOkUnless result NoMemory }
    {
        let book = &self.book;
        let first = Position { row: 1, column: 1 };
        read_tree_at(
            book.alloc,
            first,
            text,
            book.workbook.locale(),
            book.language,
        )
    }

    /// Defines a name with a formula that was read.
    fn add_name(
        &mut self,
        name: &str,
        scope: Option<u32>,
        tree: &Shared<Node>,
    ) -> Result<(), EditError>
        requires { has_canonical_numbers tree.now ≡ true }
        ensures next { Steps result self.old.document self.new.document (edit_of (ChangeNames (Add scope name.now tree.now))) }
        ensures output { OnOk result (IsMade R.Fits self.new) }
        ensures err { OnErr result (self.new ≡ self.old) }
        ensures paused { self.new.paused ≡ self.old.paused }
    {
        // For the proof alone.
        sheet_edits_go_both_ways();
        let book = &self.book;
        let selected = book.view.sheet as usize;
        let plan = plan_new_name(book.alloc, &book.workbook, scope, name, tree);
        self.make(plan, selected)
    }

    /// Gives a defined name another scope and text, and a formula that was read.
    fn change_name(
        &mut self,
        name: &str,
        scope: Option<u32>,
        new_name: &str,
        new_scope: Option<u32>,
        tree: &Shared<Node>,
    ) -> Result<(), EditError>
        requires { has_canonical_numbers tree.now ≡ true }
        ensures next { Steps result self.old.document self.new.document (edit_of (ChangeNames (Update scope name.now new_scope new_name.now tree.now))) }
        ensures output { OnOk result (IsMade R.Fits self.new) }
        ensures err { OnErr result (self.new ≡ self.old) }
        ensures paused { self.new.paused ≡ self.old.paused }
    {
        // For the proof alone.
        sheet_edits_go_both_ways();
        let book = &self.book;
        let selected = book.view.sheet as usize;
        let plan = plan_changed_name(
            book.alloc,
            &book.workbook,
            scope,
            name,
            new_scope,
            new_name,
            tree,
        );
        self.make(plan, selected)
    }

    /// Defines a name for a formula, behind the other names, and records the change. A scope is the index
    /// of the sheet where alone the name is known, or none for the whole workbook. The formula is read
    /// with or without its `=`, as in A1, in the workbook's locale and the display language.
    ///
    /// `InvalidSheet` where there is no such sheet, else `BadName` where the name is no word, has more
    /// than 255 characters, reads as a cell (`B2` or `R2C2`), or is the word for true or false in some
    /// language; else `NameTaken` where a name of that scope is equal to it, whatever the case of its
    /// letters. Then `NoMemory` is possible, and else `BadFormula` where the text is no formula. An error
    /// changes nothing.
    ///
    /// ```
    /// model.new_defined_name("Rate", None, "=$A$1")?;
    /// ```
    pub fn new_defined_name(
        &mut self,
        name: &str,
        scope: Option<u32>,
        formula: &str,
    ) -> Result<(), EditError>
        ensures next { OnStates self.old.document (λ state. MovesOrNoMemory result self.new.document (name_typed scope name.now formula.now state)) }
        ensures memory { IfErr result (λ error. error ≡ NoMemory → IsOk (name_goes scope name.now self.old.document.book)) }
        ensures output { OnOk result (IsMade R.Fits self.new) }
        ensures err { OnErr result (self.new ≡ self.old) }
        ensures paused { self.new.paused ≡ self.old.paused }
    {
        let _scope = name_goes(&self.book.workbook, scope, name)?;
        let tree = self.read_name_formula(formula)?;
        self.add_name(name, scope, &tree)
    }

    /// Takes the defined name of a scope away, and records the change. Scopes are as in
    /// `new_defined_name`.
    ///
    /// `InvalidSheet` where there is no such sheet, else `UnknownName` where no name of that scope is
    /// equal to the text, whatever the case of its letters; else `NoMemory` where there is not enough. An
    /// error changes nothing.
    ///
    /// ```
    /// model.delete_defined_name("Rate", None)?;
    /// ```
    pub fn delete_defined_name(&mut self, name: &str, scope: Option<u32>) -> Result<(), EditError>
        ensures next { Steps result self.old.document self.new.document (edit_of (ChangeNames (Remove scope name.now))) }
        ensures output { OnOk result (IsMade R.Fits self.new) }
        ensures err { OnErr result (self.new ≡ self.old) }
        ensures paused { self.new.paused ≡ self.old.paused }
    {
        // For the proof alone.
        sheet_edits_go_both_ways();
        let book = &self.book;
        let selected = book.view.sheet as usize;
        let plan = plan_removed_name(book.alloc, &book.workbook, scope, name);
        self.make(plan, selected)
    }

    /// Gives the defined name of a scope another text, scope and formula, in its place in the list, and
    /// records the change. In the formulas that meant it by its old text, the text becomes the new one.
    /// Scopes and formulas are as in `new_defined_name`.
    ///
    /// `InvalidSheet` where there is no sheet of one of the scopes, else `UnknownName` where no name of
    /// the old scope is equal to the old text, whatever the case of its letters; else `BadName` where the
    /// new text may be no name, else `NameTaken` where another name of the new scope is equal to it so.
    /// Then `NoMemory` is possible, and else `BadFormula` where the text is no formula. An error changes
    /// nothing.
    ///
    /// ```
    /// model.update_defined_name("Rate", None, "Interest", Some(0), "=$A$2")?;
    /// ```
    pub fn update_defined_name(
        &mut self,
        name: &str,
        scope: Option<u32>,
        new_name: &str,
        new_scope: Option<u32>,
        new_formula: &str,
    ) -> Result<(), EditError>
        ensures next { OnStates self.old.document (λ state. MovesOrNoMemory result self.new.document (update_typed scope name.now new_scope new_name.now new_formula.now state)) }
        ensures memory { IfErr result (λ error. error ≡ NoMemory → IsOk (update_goes scope name.now new_scope new_name.now self.old.document.book)) }
        ensures output { OnOk result (IsMade R.Fits self.new) }
        ensures err { OnErr result (self.new ≡ self.old) }
        ensures paused { self.new.paused ≡ self.old.paused }
    {
        let _found = update_goes(&self.book.workbook, scope, name, new_scope, new_name)?;
        let tree = self.read_name_formula(new_formula)?;
        self.change_name(name, scope, new_name, new_scope, &tree)
    }

    /// Whether a name could be defined so: the id of the sheet where alone it would be known, or none for
    /// the whole workbook. Nothing is changed. Scopes and formulas are as in `new_defined_name`, and so
    /// are the errors.
    ///
    /// ```
    /// let sheet_id = model.is_valid_defined_name("Rate", Some(0), "=$A$1")?;
    /// ```
    pub fn is_valid_defined_name(
        &self,
        name: &str,
        scope: Option<u32>,
        formula: &str,
    ) -> Result<Option<u32>, EditError>
        ensures scope { Answers result (name_tested scope name.now formula.now self.now.document.book self.now.document.language) }
        ensures memory { IfErr result (λ error. error ≡ NoMemory → IsOk (name_goes scope name.now self.now.document.book)) }
    {
        let id = name_goes(&self.book.workbook, scope, name)?;
        let tree = self.read_name_formula(formula)?;
        if is_name_formula(tree.get()) {
            Ok(id)
        } else {
            Err(EditError::BadFormula)
        }
    }

    /// The defined names in order, each with the index of the sheet where alone it is known, and with its
    /// formula as text in the workbook's locale and the display language. `NoMemory` alone is an error.
    ///
    /// ```
    /// let names = model.get_defined_name_list()?;
    /// ```
    pub fn get_defined_name_list(&self) -> Result<Items<ScopedName>, EditError>
        ensures names { IfOk result (λ names. names ≡ listed_names self.now.document.book.locale self.now.document.language self.now.document.book) }
        ensures only { IsOkUnless result NoMemory }
    {
        let book = &self.book;
        listed_names(
            book.alloc,
            &book.workbook,
            book.workbook.locale(),
            book.language,
        )
    }
}
