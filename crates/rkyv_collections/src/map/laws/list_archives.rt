//! Laws of maps that are the root of an archive.
//!
//! A lookup of a native key in a root map that represents a list of pairs finds the value
//! of the first pair whose key equals it, and `None` if the list has no such pair.
ghost use Rattle.rkyv_collections.specs.{FoundAreListed};
ghost use Rattle.rkyv_keys.specs.{archived_hash, found_scalars, found_texts, found_views};
ghost use Rattle.rkyv_keys.specs.{native_keys};

use rkyv_base::{HasSpec, Represents, Scalar, Text, Width};
use rkyv_keys::{KeyElement, NativeQuery};
use rkyv_scan::KeyHasher;

/// States that `get` in a root map returns a view of the value of the first equal key.
pub fn values_found_are_listed<
    A,
    Q: NativeQuery<A, K>,
    B,
    K: KeyElement + Represents<A>,
    V: Represents<B>,
    H: KeyHasher,
    W: Width,
>()
    ensures { FoundAreListed H W.Word K.HasSpec V.HasSpec
        (native_keys K.represents (archived_hash H.KeyHasher K.KeyElement) Q.fits Q.equals)
        (found_views V.represents) }
{}

/// States that `get` in a root map of scalars finds the value of the first equal key.
pub fn scalars_found_are_listed<
    A,
    Q: NativeQuery<A, K>,
    N: Scalar,
    K: KeyElement + Represents<A>,
    H: KeyHasher,
    W: Width,
>()
    ensures { FoundAreListed H W.Word K.HasSpec N.HasSpec
        (native_keys K.represents (archived_hash H.KeyHasher K.KeyElement) Q.fits Q.equals)
        (found_scalars N.encoding) }
{}

/// States that `get` in a root map to texts finds the bytes of the text of the first equal key.
pub fn texts_found_are_listed<
    A,
    Q: NativeQuery<A, K>,
    K: KeyElement + Represents<A>,
    H: KeyHasher,
    W: Width,
>()
    ensures { FoundAreListed H W.Word K.HasSpec ⟦<Text<W> as HasSpec>⟧
        (native_keys K.represents (archived_hash H.KeyHasher K.KeyElement) Q.fits Q.equals)
        (found_texts W.word) }
{}
