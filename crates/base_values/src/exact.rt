ghost use Rattle.std.specs.Prelude.{◌≡◌, IsTrue, ◌↔◌, IfOk, IsOkUnless};
ghost use Rattle.std.specs.Bool.{Decides};
ghost use Rattle.base_values.specs.declared.error.EditError.TheVariants.{NoMemory};

use crate::error::EditError;

/// A type whose copies are the value itself, and whose `==` is equality of the values that
/// contracts see.
pub trait Exact: Clone + Eq {
    ghost copies: { (a b : Self) → Self.is_clone a b → b ≡ a };

    ghost equals: { (a b : Self) → Decides (Self.eq a b) (a ≡ b) };
}

/// An equal value.
pub fn copy_of<T: Exact>(value: &T) -> Result<T, EditError>
    ensures copy { IfOk result (λ copy. copy ≡ value.now) }
    ensures only { IsOkUnless result NoMemory }
{
    Ok(value.clone()?)
}

/// Whether two values are equal.
pub fn same<T: Exact>(a: &T, b: &T) -> bool
    ensures { IsTrue result ↔ (a.now ≡ b.now) }
{
    a == b
}

impl Exact for i32 {
    ghost use Rattle.std.specs.Cmp.{signed_Decides};

    ghost copies = { λ a b h. h };

    ghost equals = { signed_Decides };
}

impl Exact for u64 {
    ghost use Rattle.std.specs.Cmp.{unsigned_Decides};

    ghost copies = { λ a b h. h };

    ghost equals = { unsigned_Decides };
}

impl Exact for bool {
    ghost use Rattle.std.specs.Cmp.{booleans_Decides};

    ghost copies = { λ a b h. h };

    ghost equals = { booleans_Decides };
}

impl<T: Exact> Exact for Option<T> {
    ghost use Rattle.std.proofs.Common.{rules};
    ghost use Rattle.base_values.specs.laws.Decided.{option_equals};

    ghost copies = { λ a b h. Prim.search (rules, T.copies) };

    ghost equals = { option_equals T.equals };
}
