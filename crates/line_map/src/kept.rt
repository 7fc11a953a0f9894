ghost use Rattle.std.specs.Prelude.{◌≡◌, ◌&&◌, Option};
ghost use Rattle.std.specs.Cmp.{and_equiv, and_per, on_equiv, on_per};
ghost use Rattle.std.specs.Option.{option_copied};
ghost use Rattle.std.specs.FinMap.{get};
ghost use Rattle.base_values.specs.KeyMap.{same_entries};
ghost use Rattle.base_values.specs.laws.KeyMap.{same_entries_equiv, same_entries_laws};

use base_values::{Exact, KeyMap, MapKey};
use std::alloc::AllocError;

/// Parts that are kept under keys.
pub trait Parts<Q, P> {
    ghost part_at: { Self → Q → Option P };

    /// The part that is kept under a key, if there is one.
    fn part(&self, key: Q) -> Option<&P>
        ensures { option_copied result ≡ part_at self.now key };
}

/// The parts of a map that is lent.
#[derive(Drop)]
pub struct PartsOf<'k, K: MapKey<P>, P> {
    pub map: &'k KeyMap<K, P>,
}

impl<'k, K: MapKey<P>, P> Parts<K::Key, P> for PartsOf<'k, K, P> {
    ghost part_at = { λ parts. get (K.seen parts.map.now) };

    fn part(&self, key: K::Key) -> Option<&P> {
        self.map.get(key)
    }
}

/// What is kept of a map of followers.
#[derive(Drop)]
pub struct KeptMap<L: MapKey<F>, P: MapKey<G>, F, G> {
    /// The entries whose keys go nowhere.
    pub lost: KeyMap<L, F>,
    /// The parts of the other entries that the way back does not give, by their keys before.
    pub parts: KeyMap<P, G>,
}

impl<L: MapKey<F>, P: MapKey<G>, F: PartialEq, G: PartialEq> PartialEq for KeptMap<L, P, F, G> {
    ghost eq = { λ a b. same_entries L.Key.eq F.eq (L.seen a.lost) (L.seen b.lost) && same_entries P.Key.eq G.eq (P.seen a.parts) (P.seen b.parts) };

    ghost laws = { and_per (on_per (λ kept. L.seen kept.lost) (same_entries_laws L.Key.PartialEq.laws F.laws))
        (on_per (λ kept. P.seen kept.parts) (same_entries_laws P.Key.PartialEq.laws G.laws)) };

    fn eq(&self, other: &KeptMap<L, P, F, G>) -> bool {
        self.lost == other.lost && self.parts == other.parts
    }
}

impl<L: MapKey<F>, P: MapKey<G>, F: Eq, G: Eq> Eq for KeptMap<L, P, F, G> {
    ghost laws = { and_equiv (on_equiv (λ kept. L.seen kept.lost) (same_entries_equiv L.Key.Eq.laws F.Eq.laws))
        (on_equiv (λ kept. P.seen kept.parts) (same_entries_equiv P.Key.Eq.laws G.Eq.laws)) };
}

impl<L: MapKey<F>, P: MapKey<G>, F: Exact, G: Exact> Clone for KeptMap<L, P, F, G> {
    ghost is_clone = { λ s r. r ≡ s };

    fn clone(&self) -> Result<KeptMap<L, P, F, G>, AllocError> {
        Ok(KeptMap {
            lost: self.lost.clone()?,
            parts: self.parts.clone()?,
        })
    }
}

impl<L: MapKey<F>, P: MapKey<G>, F: Exact, G: Exact> Exact for KeptMap<L, P, F, G> {
    ghost use Rattle.base_values.specs.laws.KeyMap.{same_seen_decides};
    ghost use Rattle.line_map.specs.laws.Equals.{both_equal};

    ghost copies = { λ a b h. h };

    ghost equals = { both_equal (λ kept. kept.lost) (λ kept. kept.parts) (λ a b p q i. record { lost = p i; parts = q i })
        (same_seen_decides L.model L.seen L.model_seen L.Key.equals F.equals) (same_seen_decides P.model P.seen P.model_seen P.Key.equals G.equals) };
}
