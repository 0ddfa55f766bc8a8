//! Hashing of values by lists of hasher calls.
//!
//! A type implements `KeyHash`, and `hash_value` returns the hash by a new hasher.

ghost use Rattle.std.specs.Prelude.{◌≡◌, List, [], ◌∷◌};
ghost use Rattle.rkyv_scan.specs.{HasherCall, Isize, Usize, hash_of_calls};
ghost use Rattle.rkyv_keys.specs.Calls.{after_calls};

use rkyv_scan::KeyHasher;

/// A value that is hashed by a list of calls, which is a function of the value.
///
/// It replaces std's `Hash`, whose calls depend on the machine.
pub trait KeyHash {
    // The calls, in order.
    ghost calls: { Self → List HasherCall };

    /// Feeds the value's calls to a hasher.
    fn hash<H: KeyHasher>(&self, state: &mut H)
        ensures { state.new ≡ after_calls H.hasher state.old (calls self.now) };
}

/// Returns the hash of a value by a new hasher.
///
/// # Examples
///
/// ```rust
/// let hashes = [
///     hash_value::<(), FxHasher64>(&()),
///     hash_value::<((), u8), FxHasher64>(&((), 1)),
///     hash_value::<(u8, ()), FxHasher64>(&(1, ())),
/// ];
/// assert_eq!(rt; hashes, [0, OF_ONE, OF_ONE]);
/// ```
#[inline]
pub fn hash_value<Q: KeyHash, H: KeyHasher + Default>(value: &Q) -> u64
    ensures { result ≡ hash_of_calls H.hasher (Q.calls value.now) }
{
    let mut state = H::default();
    value.hash(&mut state);
    state.finish()
}

impl KeyHash for usize {
    ghost calls = { λ n. Usize n ∷ [] };

    #[inline]
    fn hash<H: KeyHasher>(&self, state: &mut H) {
        state.write_usize(*self);
    }
}

impl KeyHash for isize {
    ghost calls = { λ z. Isize z ∷ [] };

    #[inline]
    fn hash<H: KeyHasher>(&self, state: &mut H) {
        state.write_isize(*self);
    }
}
