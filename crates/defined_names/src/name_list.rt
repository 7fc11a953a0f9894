ghost use Rattle.std.specs.Prelude.{◌≡◌, [], ◌∷◌, ◌++◌, OnOk, OnErr};
ghost use Rattle.std.specs.Cmp.{partial_equiv_from_equiv};
ghost use Rattle.std.specs.Cmp.Lexicographic.{pointwise, lists_per, lists_equiv};
ghost use Rattle.defined_names.specs.Names.{AreCanonicalNames, IsCanonicalName};
ghost use Rattle.defined_names.specs.contracts.defined_name.DefinedNamePartialEq.TheImpl as name;
ghost use Rattle.defined_names.specs.laws.NameEquals.{name_equiv};

use crate::defined_name::DefinedName;
use base_values::{Exact, Items};
use std::alloc::{AllocError, Global};
use std::marker::Model;

/// The defined names of a workbook, in their order. The numbers of their trees are canonical.
#[derive(Drop)]
pub struct NameList {
    items: Items<DefinedName>,
}

impl Model for NameList {
    ghost use Rattle.std.specs.Prelude.{List};
    ghost use Rattle.std.specs.Coded.{codes};
    ghost use Rattle.formula_tree.specs.contracts.node.Node as node;
    ghost use Rattle.defined_names.specs.Names.{AreCanonicalNames};
    ghost use Rattle.defined_names.specs.declared.defined_name.DefinedName.{DefinedName};

    ghost Value = { List DefinedName };

    ghost coded = { Prim.hlevel (codes, node.the_row.coded) };

    ghost view = { λ names. names.items };

    ghost invariant = { λ names. AreCanonicalNames names.items };
}

impl NameList {
    /// These names. It takes no memory.
    pub fn new(items: Items<DefinedName>) -> NameList
        requires { AreCanonicalNames items }
        ensures { result ≡ items }
    {
        NameList { items }
    }

    /// No name. It takes no memory.
    pub fn empty(alloc: Global) -> NameList
        ensures { result ≡ [] }
    {
        NameList {
            items: Items::empty(alloc),
        }
    }

    /// Adds a name at the end. Where memory runs out the list is as it was.
    pub fn push(&mut self, name: DefinedName) -> Result<(), AllocError>
        requires { IsCanonicalName name }
        ensures ok { OnOk result (self.new ≡ self.old ++ name ∷ []) }
        ensures err { OnErr result (self.new ≡ self.old) }
    {
        self.items.push(name)?;
        Ok(())
    }

    /// Lends the list of the names.
    pub(crate) fn as_items(&self) -> &Items<DefinedName>
        ensures names { result.now ≡ self.now }
        ensures canonical { AreCanonicalNames result.now }
    {
        &self.items
    }

    /// Lends the names.
    pub fn as_slice(&self) -> &[DefinedName]
        ensures names { result.now ≡ self.now }
        ensures canonical { AreCanonicalNames result.now }
    {
        self.items.as_slice()
    }
}

impl Clone for NameList {
    ghost is_clone = { λ s r. r ≡ s };

    fn clone(&self) -> Result<NameList, AllocError> {
        Ok(NameList {
            items: self.items.clone()?,
        })
    }
}

impl PartialEq for NameList {
    ghost eq = { pointwise name.ghosts.eq };

    ghost laws = { lists_per (partial_equiv_from_equiv name_equiv) };

    fn eq(&self, other: &NameList) -> bool {
        self.items == other.items
    }
}

impl Eq for NameList {
    ghost laws = { lists_equiv name_equiv };
}

impl Exact for NameList {
    ghost use Rattle.std.specs.Cmp.Lexicographic.{pointwise_decides};
    ghost use Rattle.defined_names.specs.laws.NameEquals.{defined_name_equals};

    ghost copies = { λ a b h. h };

    ghost equals = { pointwise_decides defined_name_equals };
}
