//! Conditional rules that a user adds, changes, deletes and puts in another order.

ghost use Rattle.std.specs.Prelude.{◌≡◌, IfOk, IsOkUnless, OnOk, OnErr, true};
ghost use Rattle.base_values.specs.Answers.{Returns, map_ok};
ghost use Rattle.base_values.specs.Places.{IsPlace};
ghost use Rattle.base_values.specs.declared.EditError.TheVariants.{NoMemory};
ghost use Rattle.formula_tree.specs.Numbers as numbers;
ghost use Rattle.format_rules.specs.Canonical.{has_canonical_numbers};
ghost use Rattle.rule_edits.specs.RuleEdits.RuleEdit.{Add, Delete, Swap, Update};
ghost use Rattle.edit_plans.specs.Edits.Edit.{EditRules};
ghost use Rattle.open_book.specs.Machine.{edit_of};
ghost use Rattle.user_model.specs.Properties.{formattings_in};
ghost use Rattle.user_model.specs.Reading.{formula_at};
ghost use Rattle.open_book.specs.Stands.{Steps};
ghost use Rattle.user_model.specs.Typing.{rule_formula};
ghost use Rattle.open_book.specs.Values.{IsMade};

use super::UserModel;
use crate::properties::formattings_in;
use crate::reading::{find_rule_place, read_tree_at};
use base_axis::MergedCell;
use base_shared::Shared;
use base_values::{EditError, Position};
use edit_plans::{
    plan_changed_rule, plan_new_rule, plan_removed_rule, plan_swapped_rules,
    sheet_edits_go_both_ways,
};
use format_rules::{CfRule, ConditionalFormatting};
use formula_tree::Node;
use open_book::Recalc;

impl<R: Recalc + Drop> UserModel<R> {
    /// The formula that a text is read as at a place inside the sheet.
    fn read_tree(&self, place: Position, text: &str) -> Result<Shared<Node>, EditError>
        requires { IsPlace place }
        ensures value { IfOk result (λ tree. tree ≡ formula_at place text.now self.now.document.book self.now.document.language) }
        ensures canonical { IfOk result (λ output. numbers.has_canonical_numbers output ≡ true) }
        ensures memory { IsOkUnless result NoMemory }
    {
        let book = &self.book;
        read_tree_at(
            book.alloc,
            place,
            text,
            book.workbook.locale(),
            book.language,
        )
    }

    /// Reads the text of a formula for a conditional rule whose first part is a rectangle of the sheet
    /// at an index. The text is read with or without its `=`, as in the first cell of the rectangle, in
    /// the workbook's locale and the display language. Nothing is changed.
    ///
    /// `InvalidSheet` where there is no such sheet, else `InvalidArea` where the rectangle is empty or
    /// reaches outside the sheet, else `NoMemory` where there is not enough. A text that is no formula
    /// is kept in the tree as it is; `add_conditional_formatting` refuses that.
    ///
    /// ```
    /// let area = MergedCell { row: 2, column: 2, width: 1, height: 3 };
    /// let formula = model.read_rule_formula(0, area, "B2>1")?;
    /// ```
    pub fn read_rule_formula(
        &self,
        sheet: u32,
        area: MergedCell,
        text: &str,
    ) -> Result<Shared<Node>, EditError>
        ensures read { Returns result (rule_formula sheet area text.now self.now.document.book self.now.document.language) }
        ensures canonical { IfOk result (λ output. numbers.has_canonical_numbers output ≡ true) }
    {
        let place = find_rule_place(&self.book.workbook, sheet, area)?;
        self.read_tree(place, text)
    }

    /// The conditional rules of the sheet at an index, in the order in which they were made. It takes no
    /// memory.
    ///
    /// `InvalidSheet` where there is no such sheet.
    ///
    /// ```
    /// let count = model.get_conditional_formatting(0)?.len();
    /// ```
    pub fn get_conditional_formatting(
        &self,
        sheet: u32,
    ) -> Result<&[ConditionalFormatting], EditError>
        ensures { map_ok (λ lent. lent.now) result ≡ formattings_in sheet self.now.document.book }
    {
        formattings_in(&self.book.workbook, sheet)
    }

    /// Puts a conditional rule on parts of the sheet at an index, behind the rules of the sheet, and
    /// records the change. The rule's formulas stand at the first cell of the first part. Its priority
    /// is one above the greatest of the sheet, and 1 where the sheet has no rule. The numbers of a rule
    /// have at most 15 digits on each side of the point, as those of each formula that is read.
    ///
    /// `InvalidSheet` where there is no such sheet, else `InvalidArea` where there is no part, or one
    /// that is empty or reaches outside the sheet, else `BadFormula` where a formula of the rule is a
    /// text that is none or does not fit its cell, else `RuleNumbers` where the greatest priority is
    /// 4,294,967,295, else `NoMemory` where there is not enough. An error changes nothing.
    ///
    /// ```
    /// let area = MergedCell { row: 2, column: 2, width: 1, height: 3 };
    /// let formula = model.read_rule_formula(0, area, "B2>1")?;
    /// let rule = CfRule::Formula { formula, style, stop_if_true: false };
    /// model.add_conditional_formatting(0, &[area], &rule)?;
    /// ```
    pub fn add_conditional_formatting(
        &mut self,
        sheet: u32,
        parts: &[MergedCell],
        rule: &CfRule,
    ) -> Result<(), EditError>
        requires { has_canonical_numbers rule.now ≡ true }
        ensures next { Steps result self.old.document self.new.document (edit_of (EditRules (Add sheet parts.now rule.now))) }
        ensures output { OnOk result (IsMade R.Fits self.new) }
        ensures err { OnErr result (self.new ≡ self.old) }
        ensures paused { self.new.paused ≡ self.old.paused }
    {
        // For the proof alone.
        sheet_edits_go_both_ways();
        let book = &self.book;
        let selected = book.view.sheet as usize;
        let plan = plan_new_rule(book.alloc, &book.workbook, sheet, parts, rule);
        self.make(plan, selected)
    }

    /// Gives the conditional rule at an index of the rules of a sheet, counted from 0, other parts and
    /// another content, in its place, and records the change, also where nothing changes. Its priority
    /// stays.
    ///
    /// `InvalidSheet` where there is no such sheet, else `RuleIndex` where the sheet has no rule of that
    /// index, else `InvalidArea` and `BadFormula` as in `add_conditional_formatting`, else `NoMemory`
    /// where there is not enough. An error changes nothing.
    ///
    /// ```
    /// model.update_conditional_formatting(0, 0, &[area], &rule)?;
    /// ```
    pub fn update_conditional_formatting(
        &mut self,
        sheet: u32,
        index: u64,
        parts: &[MergedCell],
        rule: &CfRule,
    ) -> Result<(), EditError>
        requires { has_canonical_numbers rule.now ≡ true }
        ensures next { Steps result self.old.document self.new.document (edit_of (EditRules (Update sheet index parts.now rule.now))) }
        ensures output { OnOk result (IsMade R.Fits self.new) }
        ensures err { OnErr result (self.new ≡ self.old) }
        ensures paused { self.new.paused ≡ self.old.paused }
    {
        // For the proof alone.
        sheet_edits_go_both_ways();
        let book = &self.book;
        let selected = book.view.sheet as usize;
        let plan = plan_changed_rule(book.alloc, &book.workbook, sheet, index, parts, rule);
        self.make(plan, selected)
    }

    /// Takes the conditional rule at an index of the rules of a sheet, counted from 0, away, and records
    /// the change. The priorities of the others stay.
    ///
    /// `InvalidSheet` where there is no such sheet, else `RuleIndex` where the sheet has no rule of that
    /// index, else `NoMemory` where there is not enough. An error changes nothing.
    ///
    /// ```
    /// model.delete_conditional_formatting(0, 0)?;
    /// ```
    pub fn delete_conditional_formatting(&mut self, sheet: u32, index: u64) -> Result<(), EditError>
        ensures next { Steps result self.old.document self.new.document (edit_of (EditRules (Delete sheet index))) }
        ensures output { OnOk result (IsMade R.Fits self.new) }
        ensures err { OnErr result (self.new ≡ self.old) }
        ensures paused { self.new.paused ≡ self.old.paused }
    {
        // For the proof alone.
        sheet_edits_go_both_ways();
        let book = &self.book;
        let selected = book.view.sheet as usize;
        let plan = plan_removed_rule(book.alloc, &book.workbook, sheet, index);
        self.make(plan, selected)
    }

    /// Exchanges the priorities of two conditional rules of a sheet, which are given by their indexes,
    /// counted from 0, and records the change, also where nothing changes. The rules keep their places
    /// in the list.
    ///
    /// `InvalidSheet` where there is no such sheet, else `RuleIndex` where the sheet has no rule of one
    /// of the indexes, else `NoMemory` where there is not enough. An error changes nothing.
    ///
    /// ```
    /// model.swap_conditional_formatting_priority(0, 0, 1)?;
    /// ```
    pub fn swap_conditional_formatting_priority(
        &mut self,
        sheet: u32,
        index_a: u64,
        index_b: u64,
    ) -> Result<(), EditError>
        ensures next { Steps result self.old.document self.new.document (edit_of (EditRules (Swap sheet index_a index_b))) }
        ensures output { OnOk result (IsMade R.Fits self.new) }
        ensures err { OnErr result (self.new ≡ self.old) }
        ensures paused { self.new.paused ≡ self.old.paused }
    {
        // For the proof alone.
        sheet_edits_go_both_ways();
        let book = &self.book;
        let selected = book.view.sheet as usize;
        let plan = plan_swapped_rules(book.alloc, &book.workbook, sheet, index_a, index_b);
        self.make(plan, selected)
    }
}
