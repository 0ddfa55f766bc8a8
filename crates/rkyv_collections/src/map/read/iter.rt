//! Iterators over the pairs, the keys and the values of a map.
//!
//! Each returns views, in bucket order. `map::laws::walks_visit_each` relates them
//! to the list that the map represents.
ghost use Rattle.std.specs.Prelude.{length, ◌≡◌};
ghost use Rattle.std.specs.Iterator.{at_most};
ghost use Rattle.rkyv_base.specs.{entry_spec};
ghost use Rattle.rkyv_table.specs.{HintsExactly, YieldsKey, YieldsPair, YieldsValue};
ghost use Rattle.rkyv_collections.specs.{WalksAll, key_positions, map_archive, map_len};

use crate::map::ArchivedHashMap;
use rkyv_base::view::PairView;
use rkyv_base::{Element, Entry, HasSpec, Narrow, View, Width};
use rkyv_scan::FxHasher64;
use rkyv_table::RawIter;
use std::marker::{Model, PhantomData};

/// The pairs of a map that remain, in bucket order.
#[derive(Drop)]
pub struct Iter<'a, K: HasSpec, V: HasSpec, H = FxHasher64, W = Narrow> {
    entries: RawIter<'a, Entry<K, V>>,
    hasher: PhantomData<H>,
    width: PhantomData<W>,
}

impl<'a, K: HasSpec, V: HasSpec, H, W> Model for Iter<'a, K, V, H, W> {
    ghost use Rattle.rkyv_base.specs.Entries.{entry_spec};
    ghost use Rattle.rkyv_table.specs.Table.RawItems.{AllValid, ItemsLeft};

    ghost Value = { ItemsLeft };

    ghost view = { λ i. i.entries };

    ghost invariant = { λ i. AllValid (entry_spec K.spec V.spec) i.entries };
}

impl<'a, K: Element, V: Element, H, W> Iterator for Iter<'a, K, V, H, W> {
    type Item = PairView<'a, K, V>;

    ghost next_gives = { YieldsPair K.spec V.spec };

    ghost remaining = { λ left. at_most (length left.positions) };

    #[inline]
    fn next(&mut self) -> Option<PairView<'a, K, V>> {
        let entry = self.entries.next_view()?;
        Some((entry.key(), entry.value()))
    }

    #[inline]
    fn size_hint(&self) -> (usize, Option<usize>)
        ensures { HintsExactly result (length self.now.positions) }
    {
        self.entries.size_hint()
    }
}

impl<'a, K: Element, V: Element, H, W> ExactSizeIterator for Iter<'a, K, V, H, W> {
    #[inline]
    fn len(&self) -> usize
        ensures { result ≡ length self.now.positions }
    {
        self.entries.len()
    }
}

/// The keys of a map that remain, in bucket order.
#[derive(Drop)]
pub struct Keys<'a, K: HasSpec, V: HasSpec, H = FxHasher64, W = Narrow> {
    pairs: Iter<'a, K, V, H, W>,
}

impl<'a, K: HasSpec, V: HasSpec, H, W> Model for Keys<'a, K, V, H, W> {
    ghost use Rattle.rkyv_table.specs.Table.RawItems.{ItemsLeft};

    ghost Value = { ItemsLeft };

    ghost view = { λ keys. keys.pairs };
}

impl<'a, K: Element, V: Element, H, W> Iterator for Keys<'a, K, V, H, W> {
    type Item = View<'a, K>;

    ghost next_gives = { YieldsKey K.spec };

    ghost remaining = { λ left. at_most (length left.positions) };

    #[inline]
    fn next(&mut self) -> Option<View<'a, K>> {
        let (key, _) = self.pairs.next()?;
        Some(key)
    }

    #[inline]
    fn size_hint(&self) -> (usize, Option<usize>)
        ensures { HintsExactly result (length self.now.positions) }
    {
        self.pairs.size_hint()
    }
}

impl<'a, K: Element, V: Element, H, W> ExactSizeIterator for Keys<'a, K, V, H, W> {
    #[inline]
    fn len(&self) -> usize
        ensures { result ≡ length self.now.positions }
    {
        self.pairs.len()
    }
}

/// The values of a map that remain, in bucket order.
#[derive(Drop)]
pub struct Values<'a, K: HasSpec, V: HasSpec, H = FxHasher64, W = Narrow> {
    pairs: Iter<'a, K, V, H, W>,
}

impl<'a, K: HasSpec, V: HasSpec, H, W> Model for Values<'a, K, V, H, W> {
    ghost use Rattle.rkyv_table.specs.Table.RawItems.{ItemsLeft};

    ghost Value = { ItemsLeft };

    ghost view = { λ values. values.pairs };
}

impl<'a, K: Element, V: Element, H, W> Iterator for Values<'a, K, V, H, W> {
    type Item = View<'a, V>;

    ghost next_gives = { YieldsValue K.spec V.spec };

    ghost remaining = { λ left. at_most (length left.positions) };

    #[inline]
    fn next(&mut self) -> Option<View<'a, V>> {
        let (_, value) = self.pairs.next()?;
        Some(value)
    }

    #[inline]
    fn size_hint(&self) -> (usize, Option<usize>)
        ensures { HintsExactly result (length self.now.positions) }
    {
        self.pairs.size_hint()
    }
}

impl<'a, K: Element, V: Element, H, W> ExactSizeIterator for Values<'a, K, V, H, W> {
    #[inline]
    fn len(&self) -> usize
        ensures { result ≡ length self.now.positions }
    {
        self.pairs.len()
    }
}

impl<'a, K: Element, V: Element, H, W: Width> ArchivedHashMap<'a, K, V, H, W> {
    /// Returns an iterator over the pairs, in bucket order.
    ///
    /// # Examples
    ///
    /// ```rust
    /// // Returns the sum of the values of a map.
    /// fn total(archive: &[u8]) -> Result<i8, VerifyError> {
    ///     let map = ArchivedHashMap::of(access::<HashMapOf<i8, i8>>(archive)?);
    ///     let mut total = 0i8;
    ///     for (_, value) in map.iter() {
    ///         total = total.wrapping_add(value.to_native());
    ///     }
    ///     Ok(total)
    /// }
    /// ```
    #[inline]
    pub fn iter(self) -> Iter<'a, K, V, H, W>
        ensures archive { result.archive ≡ map_archive self.entry }
        ensures positions { result.positions ≡ key_positions self.entry }
        ensures count { length result.positions ≡ map_len self.entry }
    {
        Iter {
            entries: self.table().raw_iter(),
            hasher: PhantomData,
            width: PhantomData,
        }
    }

    /// Returns an iterator over the keys, in bucket order.
    #[inline]
    pub fn keys(self) -> Keys<'a, K, V, H, W>
        ensures archive { result.archive ≡ map_archive self.entry }
        ensures positions { result.positions ≡ key_positions self.entry }
        ensures count { length result.positions ≡ map_len self.entry }
    {
        Keys { pairs: self.iter() }
    }

    /// Returns an iterator over the values, in bucket order.
    #[inline]
    pub fn values(self) -> Values<'a, K, V, H, W>
        ensures archive { result.archive ≡ map_archive self.entry }
        ensures positions { result.positions ≡ key_positions self.entry }
        ensures count { length result.positions ≡ map_len self.entry }
    {
        Values { pairs: self.iter() }
    }
}

/// `for (key, value) in map` iterates over the pairs, in bucket order.
impl<'a, K: Element, V: Element, H, W: Width> IntoIterator for ArchivedHashMap<'a, K, V, H, W> {
    type Item = PairView<'a, K, V>;

    type IntoIter = Iter<'a, K, V, H, W>;

    ghost into_iter_gives = { λ map. WalksAll map };

    #[inline]
    fn into_iter(self) -> Iter<'a, K, V, H, W>
        ensures into_iter_gives { WalksAll self.entry result }
    {
        self.iter()
    }
}

/// `for (key, value) in &map` iterates over the pairs, in bucket order.
impl<'a, K: Element, V: Element, H, W: Width> IntoIterator for &ArchivedHashMap<'a, K, V, H, W> {
    type Item = PairView<'a, K, V>;

    type IntoIter = Iter<'a, K, V, H, W>;

    ghost into_iter_gives = { λ map. WalksAll map.now };

    #[inline]
    fn into_iter(self) -> Iter<'a, K, V, H, W>
        ensures into_iter_gives { WalksAll self.entry.now result }
    {
        self.iter()
    }
}
