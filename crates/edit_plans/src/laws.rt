ghost use Rattle.std.specs.Prelude.{◌≡◌, List, Ok, IsTrue};
ghost use Rattle.format_rules.specs.declared.ConditionalFormatting.{ConditionalFormatting};
ghost use Rattle.rule_edits.specs.declared.RuleChange.{RuleChange};
ghost use Rattle.rule_edits.specs.RuleEdits.{RuleEdit, rule_changes, rules_after};
ghost use Rattle.sheet_grid.specs.Book.{Book};
ghost use Rattle.sheet_rules.specs.WellFormed.{IsWellFormed};
ghost use Rattle.edit_plans.specs.Edits.{Edit, IsGiven, changed, is_of_entries, is_of_sheets};
ghost use Rattle.edit_plans.specs.Plans.{GoesBothWays, HasRecord};
ghost use Rattle.edit_plans.specs.RuleRecords.{AreDifferences, leaves_indexes};

/// A law about accepted edits by entries of a well-formed workbook, with no work at run time: the
/// later workbook is well-formed, and there is a record of the two. A content has to be one that
/// may stand at its place, and an array goes to a rectangle only.
pub fn edits_have_records()
    ensures { (edit : Edit) (earlier later : Book) → IsTrue (is_of_entries edit) → IsGiven edit → IsWellFormed earlier →
        changed edit earlier ≡ Ok later → HasRecord earlier later }
{}

/// A law about accepted edits of the list of the sheets, of the defined names, of conditional rules
/// or of a setting of a well-formed workbook, with no work at run time: the later workbook is
/// well-formed, and the record of the edit leads to it and back.
pub fn sheet_edits_go_both_ways()
    ensures { (edit : Edit) (earlier later : Book) → IsTrue (is_of_sheets edit) → IsWellFormed earlier → changed edit earlier ≡ Ok later →
        GoesBothWays edit earlier later }
{}

/// A law about edits of conditional rules, with no work at run time: where one leaves each rule at
/// its index, its changes are one for each rule that differs afterwards, by index, and no others.
pub fn rule_changes_are_exact()
    ensures { (edit : RuleEdit) (changes : List RuleChange) (rules : List ConditionalFormatting) → IsTrue (leaves_indexes edit) →
        rule_changes edit rules ≡ Ok changes → AreDifferences rules (rules_after changes rules) changes }
{}
