//! Which trees a renaming changes, and which ones the opposite renaming does not give back, told by the
//! names in them.

ghost use Rattle.std.specs.Prelude.{◌≡◌, None, Some, IfOk, IsOkUnless, if◌then◌else◌};
ghost use Rattle.std.specs.Bool.{Decides};
ghost use Rattle.base_values.specs.declared.EditError.TheVariants.{NoMemory};
ghost use Rattle.formula_names.specs.Renamed.{is_lost_name, is_lost_sheet, reaches_sheets};
ghost use Rattle.formula_names.specs.Renamed.{renamed_and_back, renamed_name, tree_kept, tree_renamed};

use crate::reach::Reach;
use base_shared::Shared;
use base_tables::same_by_folding;
use base_values::{EditError, Text, copy_of};
use formula_back::{LeafTest, has_leaf};
use formula_tree::{Corner, Node};

/// The text that a name is after a renaming, which reaches it or not.
#[tactic(auto, unfolding(crate::specs::Renamed::renamed_name))]
fn after_renaming<'n>(reached: bool, old: &str, new: &'n str, name: &'n str) -> &'n str
    ensures { result.now ≡ renamed_name reached old.now new.now name.now }
{
    if reached && same_by_folding(name, old) {
        new
    } else {
        name
    }
}

/// Whether a name is lost: a renaming, which reaches it or not, and the opposite one, which does or not,
/// give another one.
#[tactic(auto, unfolding(crate::specs::Renamed::is_lost_name))]
fn is_lost_name(there: bool, back: bool, old: &str, new: &str, name: &str) -> bool
    ensures { result ≡ is_lost_name there back old.now new.now name.now }
{
    let after = after_renaming(there, old, new, name);
    after_renaming(back, new, old, after) != name
}

/// Two renamings, the second of which goes the opposite way, and what each reaches.
#[derive(Drop)]
struct Renamings<'n> {
    there: Reach,
    back: Reach,
    old: &'n str,
    new: &'n str,
}

/// Whether the sheet that a node names, if it names one, is lost.
fn is_lost_sheet(renamings: &Renamings<'_>, sheet: &Option<Shared<Text>>) -> bool
    ensures { result ≡ is_lost_sheet (reaches_sheets renamings.now.there) (reaches_sheets renamings.now.back) renamings.now.old.now renamings.now.new.now sheet.now }
{
    match sheet {
        Some(name) => is_lost_name(
            renamings.there.reaches_sheets(),
            renamings.back.reaches_sheets(),
            renamings.old,
            renamings.new,
            name.get().as_str(),
        ),
        None => false,
    }
}

impl<'n> LeafTest for Renamings<'n> {
    ghost use Rattle.formula_names.specs.Renamed.{lost_names};

    ghost tests = { λ self. lost_names self.there self.back self.old.now self.new.now };

    fn reference(&self, sheet: &Option<Shared<Text>>, _corner: Corner) -> bool {
        is_lost_sheet(self, sheet)
    }

    fn range(&self, sheet: &Option<Shared<Text>>, _first: Corner, _second: Corner) -> bool {
        is_lost_sheet(self, sheet)
    }

    fn name(&self, name: &Text) -> bool {
        is_lost_name(
            self.there.reaches_names(),
            self.back.reaches_names(),
            self.old,
            self.new,
            name.as_str(),
        )
    }
}

/// Whether a tree stays as it is where `old` is renamed to `new`, told without memory.
pub fn is_unchanged(tree: &Node, reach: Reach, old: &str, new: &str) -> bool
    ensures { Decides result (tree_renamed reach old.now new.now tree.now ≡ tree.now) }
{
    let renamings = Renamings {
        there: reach,
        back: Reach::Nothing,
        old,
        new,
    };
    !has_leaf(tree, &renamings)
}

/// Whether a tree comes back where `old` is renamed to `new` and then `new` to `old`, told without memory.
/// The two renamings may reach different names.
pub fn comes_back(tree: &Node, there: Reach, back: Reach, old: &str, new: &str) -> bool
    ensures { Decides result (renamed_and_back there back old.now new.now tree.now ≡ tree.now) }
{
    let renamings = Renamings {
        there,
        back,
        old,
        new,
    };
    !has_leaf(tree, &renamings)
}

/// The tree, which is shared, but where it comes back.
fn kept_unless(comes_back: bool, tree: &Shared<Node>) -> Result<Option<Shared<Node>>, EditError>
    ensures kept { IfOk result (λ kept. kept ≡ (if comes_back then None else Some tree.now)) }
    ensures only { IsOkUnless result NoMemory }
{
    if comes_back {
        Ok(None)
    } else {
        Ok(Some(copy_of(tree)?))
    }
}

/// What is kept of a tree where `old` is renamed to `new`: the tree, where the opposite renaming does not
/// give it back. It is shared. Only `NoMemory` is refused.
pub fn kept_tree(
    tree: &Shared<Node>,
    there: Reach,
    back: Reach,
    old: &str,
    new: &str,
) -> Result<Option<Shared<Node>>, EditError>
    ensures kept { IfOk result (λ kept. kept ≡ tree_kept there back old.now new.now tree.now) }
    ensures only { IsOkUnless result NoMemory }
{
    kept_unless(comes_back(tree.get(), there, back, old, new), tree)
}
