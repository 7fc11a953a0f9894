//! The conditional rules of a sheet.

ghost use Rattle.std.specs.Prelude.{◌≡◌};

use super::Worksheet;
use format_rules::RuleList;

impl Worksheet {
    /// The conditional rules, in the order in which they were made.
    pub fn conditional_formatting(&self) -> &RuleList
        ensures { result.now ≡ self.now.formattings }
    {
        &self.formattings
    }

    /// Puts these conditional rules in place of the sheet's own. They may be any: it is not asked
    /// whether they stand on a part of the sheet, and whether their formulas fit there. It takes no
    /// memory.
    pub fn set_conditional_formatting(&mut self, formattings: RuleList)
        ensures { self.new ≡ record self.old { formattings = formattings } }
    {
        self.formattings = formattings;
    }
}
