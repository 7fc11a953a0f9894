use base_values::Exact;
use defined_names::DefinedName;

/// A defined name that comes, goes or changes. docs/MODEL.md has the rules.
#[derive(Clone, PartialEq, Eq, Drop)]
pub struct NameChange {
    /// Its place in the list of the names.
    pub index: u64,
    /// The name before. None stands for one that comes.
    pub old: Option<DefinedName>,
    /// The name afterwards. None stands for one that goes.
    pub new: Option<DefinedName>,
}

impl Exact for NameChange {
    ghost use Rattle.std.proofs.Common.{rules};
    ghost use Rattle.name_edits.specs.laws.ChangeEquals.{name_change_equals};

    ghost copies = { λ a b h. Prim.search rules };

    ghost equals = { name_change_equals };
}
