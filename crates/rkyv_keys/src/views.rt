//! Views of archived keys, as queries.
//!
//! A key of one map is thus looked up in another, without reading it back.

ghost use Rattle.std.specs.Prelude.{MatchResult, Ok, ◌≡◌, ⊤};
ghost use Rattle.rkyv_base.specs.Lemmas.ElementSpec.{viewable_prop};
ghost use Rattle.rkyv_base.specs.{IsValidView, bytes_of, pos_of};

mod query;

use rkyv_base::{HasSpec, View};
use std::alloc::AllocError;

/// A valid archived key, as a query for the keys that are the same.
pub struct KeyView<'a, K: HasSpec> {
    view: View<'a, K>,
    ghost valid: { IsValidView K.spec view } by { viewable_prop K.spec K.laws (bytes_of view)
        (pos_of view) },
}

impl<'a, K: HasSpec> Clone for KeyView<'a, K> {
    #[inline]
    fn clone(&self) -> Result<KeyView<'a, K>, AllocError>
        ensures cases { MatchResult result (λ clone. clone ≡ self.now) (λ _. ¬ ⊤) }
        ensures same { result ≡ Ok self.now }
    {
        Ok(*self)
    }

    ghost is_clone = { λ key clone. clone ≡ key };

    ghost is_infallible = { λ _. ⊤ };
}

impl<'a, K: HasSpec> Copy for KeyView<'a, K> {}
