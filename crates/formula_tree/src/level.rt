ghost use Rattle.std.specs.Prelude.{◌≡◌};
ghost use Rattle.formula_tree.specs.Levels.{tighter};

/// How many levels of operators there are.
pub const LEVELS: u8 = 10;

/// How many levels of operators are tighter than this one.
pub fn tighter(level: u8) -> u8
    ensures { result ≡ tighter level }
{
    LEVELS.saturating_sub(level)
}
