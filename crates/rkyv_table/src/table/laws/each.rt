//! Laws of writes of each item in place.
ghost use Rattle.rkyv_table.specs.{OnceComputes};

use rkyv_base::{Scalar, Seal};

/// States that a scalar that is written once has the value that the closure computes.
///
/// The closure must compute it only from the old value.
pub fn writes_once_compute<N: Scalar, F: Fn(&mut Seal<'_, N>)>()
    ensures { OnceComputes N.spec N.encoding F.post }
{}
