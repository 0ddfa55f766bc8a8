//! Laws of writes of all values in place.
ghost use Rattle.rkyv_keys.specs.{native_pairs};
ghost use Rattle.rkyv_collections.specs.{EachWrittenRepresents};

use rkyv_base::{Represents, Seal, Width};
use rkyv_keys::KeyElement;
use rkyv_scan::KeyHasher;

/// States that `for_each_value` replaces each value in the represented list of pairs.
///
/// The closure must compute the new native value from only the old one.
pub fn each_written_represents<
    A,
    B,
    K: KeyElement + Represents<A>,
    V: Represents<B>,
    H: KeyHasher,
    W: Width,
    F: Fn(&mut Seal<'_, V>),
>()
    ensures { EachWrittenRepresents W.word K.spec V.spec
        (native_pairs K.represents V.represents H.hasher K.key_calls) F.post }
{}
