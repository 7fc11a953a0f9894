ghost use Rattle.std.specs.Prelude.{◌≡◌, IfOk, IsOkUnless};
ghost use Rattle.base_values.specs.declared.EditError.TheVariants.{NoMemory};

use crate::follower::Follower;
use crate::rules::{carried_items, kept_items, restored_items};
use base_axis::Axis;
use base_maps::IndexMap;
use base_values::{EditError, Exact, Items, Text, copy_of};
use format_rules::ConditionalFormatting;
use line_edits::LineMap;
use line_routes::Route;
use std::alloc::Global;

/// The rules of the sheet that is edited, with the name of that sheet. Names are compared by simple
/// case folding.
#[derive(Clone, Drop, PartialEq, Eq)]
pub struct EditedRules {
    pub rules: Items<ConditionalFormatting>,
    pub edited: Text,
}

impl Exact for EditedRules {
    ghost use Rattle.std.proofs.Common.{rules};
    ghost use Rattle.line_map.specs.laws.EditedEquals.{edited_rules_equals};

    ghost copies = { λ a b h. Prim.search rules };

    ghost equals = { edited_rules_equals };
}

/// The same with other rules.
fn with_rules(
    own: &EditedRules,
    rules: Items<ConditionalFormatting>,
) -> Result<EditedRules, EditError>
    ensures rules { IfOk result (λ output. output ≡ record own.now { rules = rules }) }
    ensures only { IsOkUnless result NoMemory }
{
    let edited = copy_of(&own.edited)?;
    Ok(EditedRules { rules, edited })
}

/// Each rule of the edited sheet is carried along. What is kept is each rule that the way back does
/// not give, whole and under its place in the list.
impl<A: Axis> Follower<A> for EditedRules {
    ghost use Rattle.std.specs.Prelude.{Some, ⊤};
    ghost use Rattle.line_map.specs.EditedRules.{edited_carried, edited_part, edited_restored, EditedInside};
    ghost use Rattle.line_map.specs.laws.EditedLaws.{edited_stay, edited_restore};

    type Part = IndexMap<ConditionalFormatting>;

    ghost Inside = { λ _. EditedInside };

    ghost carry_of = { edited_carried };

    ghost part_of = { edited_part };

    ghost Fits = { λ _ _. ⊤ };

    ghost restore_of = { edited_restored };

    fn carry<M: LineMap<A>>(
        &self,
        alloc: Global,
        route: &Route<'_, A, M>,
    ) -> Result<EditedRules, EditError> {
        let there = route.of_sheet(route.sheet, self.edited.as_str());
        with_rules(self, carried_items(alloc, &there, self.rules.as_slice())?)
    }

    fn part<M: LineMap<A>>(
        &self,
        alloc: Global,
        route: &Route<'_, A, M>,
    ) -> Result<Option<IndexMap<ConditionalFormatting>>, EditError> {
        let there = route.of_sheet(route.sheet, self.edited.as_str());
        Ok(Some(kept_items(alloc, &there, self.rules.as_slice())?))
    }

    fn restore<M: LineMap<A>>(
        &self,
        alloc: Global,
        route: &Route<'_, A, M>,
        part: &IndexMap<ConditionalFormatting>,
    ) -> Result<EditedRules, EditError> {
        let there = route.of_sheet(route.sheet, self.edited.as_str());
        let rules = restored_items(alloc, &there, self.rules.as_slice(), part)?;
        with_rules(self, rules)
    }

    ghost stays = { edited_stay };

    ghost part_fits = { λ w is v lies k kept. tt };

    ghost comes_back = { λ w is v lies h. absurd (Prim.cc) };

    ghost restores = { λ w is v lies k h. edited_restore w v k h };
}
