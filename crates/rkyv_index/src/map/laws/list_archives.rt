//! Laws of index maps that are the root of an archive.
//!
//! A lookup of a native key in a root index map that represents a list of pairs finds the first
//! pair whose key equals it, and `None` if the list has no such pair.
//!
//! - `index`: `get_index_of` finds its index in the list.
//! - `value`: `get` finds its value.
ghost use Rattle.rkyv_index.specs.{FoundAreListed};
ghost use Rattle.rkyv_keys.specs.{archived_hash, found_scalars, found_texts, found_views};
ghost use Rattle.rkyv_keys.specs.{native_keys};

use crate::width::IndexWidth;
use rkyv_base::{HasSpec, Represents, Scalar, Text};
use rkyv_keys::{KeyElement, NativeQuery};
use rkyv_scan::KeyHasher;

/// States that a lookup in a root index map finds the index and the value of the first equal key.
pub fn values_found_are_listed<
    A,
    Q: NativeQuery<A, K>,
    B,
    K: KeyElement + Represents<A>,
    V: Represents<B>,
    H: KeyHasher,
    W: IndexWidth,
>()
    ensures { FoundAreListed H W.Word K.HasSpec V.HasSpec
        (native_keys K.represents (archived_hash H.KeyHasher K.KeyElement) Q.fits Q.equals)
        (found_views V.represents) }
{}

/// States the law `values_found_are_listed` for values that are scalars.
pub fn scalars_found_are_listed<
    A,
    Q: NativeQuery<A, K>,
    N: Scalar,
    K: KeyElement + Represents<A>,
    H: KeyHasher,
    W: IndexWidth,
>()
    ensures { FoundAreListed H W.Word K.HasSpec N.HasSpec
        (native_keys K.represents (archived_hash H.KeyHasher K.KeyElement) Q.fits Q.equals)
        (found_scalars N.encoding) }
{}

/// States the law `values_found_are_listed` for values that are strings.
pub fn texts_found_are_listed<
    A,
    Q: NativeQuery<A, K>,
    K: KeyElement + Represents<A>,
    H: KeyHasher,
    W: IndexWidth,
>()
    ensures { FoundAreListed H W.Word K.HasSpec ⟦<Text<W> as HasSpec>⟧
        (native_keys K.represents (archived_hash H.KeyHasher K.KeyElement) Q.fits Q.equals)
        (found_texts W.word) }
{}
