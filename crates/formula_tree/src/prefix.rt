ghost use Rattle.std.specs.Prelude.{◌≡◌};
ghost use Rattle.formula_tree.specs.Levels.{prefix_level};

/// A sign before its operand.
#[derive(Clone, Copy)]
pub enum Prefix {
    /// `-`
    Minus,
    /// `+`, which makes no node.
    Plus,
    /// `@`
    At,
}

impl Prefix {
    /// How tightly it binds: 1 is the loosest level, 10 the tightest.
    pub fn level(self) -> u8
        ensures { result ≡ prefix_level self }
    {
        match self {
            Prefix::Minus | Prefix::Plus => 6,
            Prefix::At => 8,
        }
    }
}
