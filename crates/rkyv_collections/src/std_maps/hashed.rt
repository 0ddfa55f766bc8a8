//! The wrapper for archiving a std map or set.
//!
//! std's types have no hasher of archived maps, so `Hashed` names it.

ghost use Rattle.std.specs.Prelude.{◌≡◌};
ghost use Rattle.std.specs.Borrow.{Lends, sem};
ghost use Rattle.rkyv_collections.specs.StdMaps.StdMap.{inner, with_inner};
ghost use Rattle.rkyv_collections.specs.contracts.std_maps.hashed.Hashed.{the_row};

use rkyv_scan::FxHasher64;
use std::fmt::{self, Debug, Formatter, Write};
use std::marker::PhantomData;

/// A std map or set, or a reference to one, that is archived under the hasher `H`.
///
/// The load factor is 7 / 8. The pairs or keys are inserted in the order of the iterator.
///
/// # Examples
///
/// ```rust
/// type Ages = HashMap<String, u8>;
///
/// // Archives a std map, and reads it back.
/// fn ages_round_trip(alloc: Global, ages: &Ages) -> Result<Ages, Fail> {
///     let ages: Hashed<&Ages> = Hashed::new(ages);
///     let archive = to_bytes(alloc, &ages)?;
///     let map = ArchivedHashMap::of(access::<HashMapOf<Text, u8>>(archive.as_slice())?);
///     Ok(map.deserialize_std(alloc, BuildHasherDefault::new())?)
/// }
/// ```
#[derive(Drop)]
#[derive_where(Clone, Copy; M)]
pub struct Hashed<M, H = FxHasher64> {
    pub(crate) map: M,
    hasher: PhantomData<H>,
}

impl<M, H> Hashed<M, H> {
    /// Returns the wrapper of a map or set.
    #[inline]
    pub fn new(map: M) -> Hashed<M, H>
        ensures { inner result ≡ map }
    {
        Hashed {
            map,
            hasher: PhantomData,
        }
    }

    /// Returns a reference to the map or set.
    #[inline]
    pub fn get(&self) -> &M
        ensures { result.now ≡ inner self.now }
    {
        &self.map
    }

    /// Returns a mutable reference to the map or set.
    #[inline]
    pub fn get_mut(&mut self) -> &mut M
        ensures value { result.now ≡ inner self.old }
        ensures* writes_back { sem 𝓛 (Lends (the_row M.row H.row) M.row self.entry result
            (with_inner self.old)) }
    {
        &mut self.map
    }

    /// Returns the map or set itself.
    #[inline]
    pub fn into_inner(self) -> M
        ensures { result ≡ inner self }
    {
        let Hashed { map, .. } = self;
        map
    }
}

impl<M: PartialEq, H> PartialEq for Hashed<M, H> {
    ghost eq = { λ x y. M.eq (inner x) (inner y) };

    ghost laws = { let m = M.laws in
        record {
          symm = λ x y. m.symm (inner x) (inner y);
          trans = λ x y z. m.trans (inner x) (inner y) (inner z);
        } };

    #[inline]
    fn eq(&self, other: &Hashed<M, H>) -> bool
        ensures { result ≡ M.eq (inner self.now) (inner other.now) }
    {
        self.map == other.map
    }
}

impl<M: Eq, H> Eq for Hashed<M, H> {
    ghost laws = { let m = M.Eq.laws in
        record {
          refl = λ x. m.refl (inner x);
          symm = λ x y. m.symm (inner x) (inner y);
          congr = λ x y z. m.congr (inner x) (inner y) (inner z);
        } };
}

/// `Hashed` is formatted as the map or set itself.
impl<M: Debug, H> Debug for Hashed<M, H> {
    ghost debug_output = { λ x. M.debug_output (inner x) };

    fn fmt<U: Write>(&self, f: &mut Formatter<U>) -> fmt::Result {
        self.map.fmt(f)
    }
}
