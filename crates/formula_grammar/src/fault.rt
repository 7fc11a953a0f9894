use std::alloc::AllocError;

/// Why no tree was read.
#[derive(Clone, Copy, Debug)]
pub enum Fault {
    /// Memory ran out.
    Memory,
    /// The tokens are outside the grammar.
    Outside,
}

impl From<AllocError> for Fault {
    ghost use Rattle.std.specs.Prelude.{◌≡◌};
    ghost use Rattle.formula_grammar.specs.declared.fault.Fault.TheVariants.{Memory};

    ghost from_gives = { λ _ e. e ≡ Memory };

    fn from(_refused: AllocError) -> Fault {
        Fault::Memory
    }
}
