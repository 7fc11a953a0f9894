ghost use Rattle.std.specs.Prelude.{◌≡◌, ℕ, List};
ghost use Rattle.base_values.specs.declared.Position.{Position};
ghost use Rattle.formula_tree.specs.declared.numbers.NumberRule.{NumberRule};
ghost use Rattle.formula_tree.specs.declared.Node.{Node as Tree};
ghost use Rattle.formula_tree.specs.Depth.{depth_of};
ghost use Rattle.formula_tree.specs.Numbers.{numbers_follow};
ghost use Rattle.formula_tree.specs.Placed.{is_placed};
ghost use Rattle.formula_names.specs.declared.reach.Reach.{Reach};
ghost use Rattle.formula_names.specs.Renamed.{tree_renamed};

/// The law of renamed trees, with no work at run time: such a tree is as deep as it was, its numbers
/// and corners are as they were, and to rename once more changes nothing.
pub fn renamed_trees_fit()
    ensures depth { (reach : Reach) (old new : List ℕ) (tree : Tree) → depth_of (tree_renamed reach old new tree) ≡ depth_of tree }
    ensures numbers { (rule : NumberRule) (reach : Reach) (old new : List ℕ) (tree : Tree) → numbers_follow rule (tree_renamed reach old new tree) ≡ numbers_follow rule tree }
    ensures corners { (place : Position) (reach : Reach) (old new : List ℕ) (tree : Tree) → is_placed place (tree_renamed reach old new tree) ≡ is_placed place tree }
    ensures twice { (reach : Reach) (old new : List ℕ) (tree : Tree) → tree_renamed reach old new (tree_renamed reach old new tree) ≡ tree_renamed reach old new tree }
{}
