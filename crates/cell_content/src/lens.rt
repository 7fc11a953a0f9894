//! A content as a shape and maybe a tree: what works on trees of cells is written by these two.

ghost use Rattle.std.specs.Prelude.{◌≡◌, IfOk, IsOkUnless};
ghost use Rattle.std.specs.Option.{option_copied};
ghost use Rattle.base_values.specs.declared.EditError.TheVariants.{NoMemory};
ghost use Rattle.cell_content.specs.Lens.{tree_of, with_tree};

use crate::content::Content;
use base_shared::Shared;
use base_values::{EditError, copy_of};
use formula_tree::Node;

/// Lends the tree of a formula; any other content has none.
pub fn tree_of(content: &Content) -> Option<&Shared<Node>>
    ensures { option_copied result ≡ tree_of content.now }
{
    match content {
        Content::Empty | Content::Number(_) => None,
        Content::Boolean(_) | Content::Error(_) | Content::Text(_) => None,
        Content::Formula(tree) | Content::Dynamic(tree) => Some(tree),
        Content::Array { tree, .. } => Some(tree),
    }
}

/// A copy of a content with that tree in place of its own; an array keeps its sides, and a content
/// without a tree stays as it is.
/// `NoMemory` alone is an error.
pub fn with_tree(content: &Content, tree: Shared<Node>) -> Result<Content, EditError>
    ensures content { IfOk result (λ changed. changed ≡ with_tree content.now tree) }
    ensures only { IsOkUnless result NoMemory }
{
    match content {
        Content::Empty | Content::Number(_) => copy_of(content),
        Content::Boolean(_) | Content::Error(_) | Content::Text(_) => copy_of(content),
        Content::Formula(_) => Ok(Content::Formula(tree)),
        Content::Dynamic(_) => Ok(Content::Dynamic(tree)),
        Content::Array { width, height, .. } => Ok(Content::Array {
            tree,
            width: *width,
            height: *height,
        }),
    }
}
