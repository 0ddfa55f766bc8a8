//! Iterators over the pairs, the keys and the values of an index map.
//!
//! Each returns views, in insertion order.
ghost use Rattle.std.specs.Prelude.{length, ◌≡◌};
ghost use Rattle.std.specs.Iterator.{at_most};
ghost use Rattle.rkyv_base.specs.{entry_spec};
ghost use Rattle.rkyv_table.specs.{AllValid, HintsExactly, YieldsKey, YieldsPair, YieldsValue};
ghost use Rattle.rkyv_index.specs.{WalksAll, index_archive, index_len, key_positions};

use crate::map::ArchivedIndexMap;
use crate::width::IndexWidth;
use rkyv_base::view::PairView;
use rkyv_base::{Element, Entry, HasSpec, View};
use std::marker::{Model, PhantomData};

/// An iterator over the pairs of an index map, in insertion order.
#[derive(Drop)]
pub struct Iter<'a, K: HasSpec, V: HasSpec> {
    archive: &'a [u8],
    // The position of the next entry, if one remains.
    at: usize,
    size: usize,
    left: usize,
    key: PhantomData<K>,
    value: PhantomData<V>,
}

impl<'a, K: HasSpec, V: HasSpec> Model for Iter<'a, K, V> {
    ghost use Rattle.rkyv_base.specs.Entries.{entry_spec};
    ghost use Rattle.rkyv_index.specs.Map.{row};
    ghost use Rattle.rkyv_index.specs.Map.Walking.{IsWalk};
    ghost use Rattle.rkyv_table.specs.Table.RawItems.{ItemsLeft};

    ghost Value = { ItemsLeft };

    ghost view = { λ i. record { archive = i.archive; positions = row i.size i.at i.left } };

    ghost invariant = { λ i. IsWalk (entry_spec K.spec V.spec) i.archive.now i.at i.size
        i.left };
}

impl<'a, K: Element, V: Element> Iterator for Iter<'a, K, V> {
    type Item = PairView<'a, K, V>;

    ghost next_gives = { YieldsPair K.spec V.spec };

    ghost remaining = { λ left. at_most (length left.positions) };

    #[inline]
    fn next(&mut self) -> Option<PairView<'a, K, V>> {
        if self.left == 0 {
            return None;
        }
        let entry = View::<'a, Entry<K, V>>::new(self.archive, self.at as u64);
        self.left -= 1;
        self.at += self.size;
        Some((entry.key(), entry.value()))
    }

    #[inline]
    fn size_hint(&self) -> (usize, Option<usize>)
        ensures { HintsExactly result (length self.now.positions) }
    {
        (self.left, Some(self.left))
    }
}

impl<'a, K: Element, V: Element> ExactSizeIterator for Iter<'a, K, V> {
    #[inline]
    fn len(&self) -> usize
        ensures value { result ≡ length self.now.positions }
    {
        self.left
    }
}

/// An iterator over the keys of an index map, in insertion order.
#[derive(Drop)]
pub struct Keys<'a, K: HasSpec, V: HasSpec> {
    pairs: Iter<'a, K, V>,
}

impl<'a, K: HasSpec, V: HasSpec> Model for Keys<'a, K, V> {
    ghost use Rattle.rkyv_table.specs.Table.RawItems.{ItemsLeft};

    ghost Value = { ItemsLeft };

    ghost view = { λ keys. keys.pairs };
}

impl<'a, K: Element, V: Element> Iterator for Keys<'a, K, V> {
    type Item = View<'a, K>;

    ghost next_gives = { YieldsKey K.spec };

    ghost remaining = { λ left. at_most (length left.positions) };

    #[inline]
    fn next(&mut self) -> Option<View<'a, K>> {
        let (key, _) = self.pairs.next()?;
        Some(key)
    }

    #[inline]
    fn size_hint(&self) -> (usize, Option<usize>)
        ensures { HintsExactly result (length self.now.positions) }
    {
        self.pairs.size_hint()
    }
}

impl<'a, K: Element, V: Element> ExactSizeIterator for Keys<'a, K, V> {
    #[inline]
    fn len(&self) -> usize
        ensures value { result ≡ length self.now.positions }
    {
        self.pairs.len()
    }
}

/// An iterator over the values of an index map, in insertion order.
#[derive(Drop)]
pub struct Values<'a, K: HasSpec, V: HasSpec> {
    pairs: Iter<'a, K, V>,
}

impl<'a, K: HasSpec, V: HasSpec> Model for Values<'a, K, V> {
    ghost use Rattle.rkyv_table.specs.Table.RawItems.{ItemsLeft};

    ghost Value = { ItemsLeft };

    ghost view = { λ values. values.pairs };
}

impl<'a, K: Element, V: Element> Iterator for Values<'a, K, V> {
    type Item = View<'a, V>;

    ghost next_gives = { YieldsValue K.spec V.spec };

    ghost remaining = { λ left. at_most (length left.positions) };

    #[inline]
    fn next(&mut self) -> Option<View<'a, V>> {
        let (_, value) = self.pairs.next()?;
        Some(value)
    }

    #[inline]
    fn size_hint(&self) -> (usize, Option<usize>)
        ensures { HintsExactly result (length self.now.positions) }
    {
        self.pairs.size_hint()
    }
}

impl<'a, K: Element, V: Element> ExactSizeIterator for Values<'a, K, V> {
    #[inline]
    fn len(&self) -> usize
        ensures value { result ≡ length self.now.positions }
    {
        self.pairs.len()
    }
}

impl<'a, K: Element, V: Element, H, W: IndexWidth> ArchivedIndexMap<'a, K, V, H, W> {
    /// Returns an iterator over the pairs, in insertion order.
    ///
    /// # Examples
    ///
    /// ```rust
    /// type Prices = IndexMapOf<Text, u32>;
    ///
    /// // Returns the prices in insertion order.
    /// fn all_prices(alloc: Global, archive: &[u8]) -> Result<Vec<u32>, Fail> {
    ///     let prices = ArchivedIndexMap::of(access::<Prices>(archive)?);
    ///     let mut all = Vec::new(alloc);
    ///     for (_, price) in &prices {
    ///         all.push(price.to_native())?;
    ///     }
    ///     Ok(all)
    /// }
    /// ```
    #[inline]
    pub fn iter(self) -> Iter<'a, K, V>
        ensures archive { result.archive ≡ index_archive self.entry }
        ensures positions { result.positions ≡ key_positions self.entry }
        ensures count { length result.positions ≡ index_len self.entry }
        ensures all_valid { AllValid (entry_spec K.spec V.spec) result }
    {
        Iter {
            archive: self.view.bytes(),
            at: self.begin as usize,
            size: Entry::<K, V>::size(),
            left: self.len(),
            key: PhantomData,
            value: PhantomData,
        }
    }

    /// Returns an iterator over the keys, in insertion order.
    #[inline]
    pub fn keys(self) -> Keys<'a, K, V>
        ensures archive { result.archive ≡ index_archive self.entry }
        ensures positions { result.positions ≡ key_positions self.entry }
        ensures count { length result.positions ≡ index_len self.entry }
        ensures all_valid { AllValid (entry_spec K.spec V.spec) result }
    {
        Keys { pairs: self.iter() }
    }

    /// Returns an iterator over the values, in insertion order.
    #[inline]
    pub fn values(self) -> Values<'a, K, V>
        ensures archive { result.archive ≡ index_archive self.entry }
        ensures positions { result.positions ≡ key_positions self.entry }
        ensures count { length result.positions ≡ index_len self.entry }
        ensures all_valid { AllValid (entry_spec K.spec V.spec) result }
    {
        Values { pairs: self.iter() }
    }
}

/// `for (key, value) in map` visits the pairs, in insertion order.
impl<'a, K: Element, V: Element, H, W: IndexWidth> IntoIterator
    for ArchivedIndexMap<'a, K, V, H, W> {
    type Item = PairView<'a, K, V>;

    type IntoIter = Iter<'a, K, V>;

    ghost into_iter_gives = { λ map. WalksAll map };

    #[inline]
    fn into_iter(self) -> Iter<'a, K, V>
        ensures into_iter_gives { WalksAll self.entry result }
    {
        self.iter()
    }
}

/// `for (key, value) in &map` visits the pairs, in insertion order.
impl<'a, K: Element, V: Element, H, W: IndexWidth> IntoIterator
    for &ArchivedIndexMap<'a, K, V, H, W> {
    type Item = PairView<'a, K, V>;

    type IntoIter = Iter<'a, K, V>;

    ghost into_iter_gives = { λ map. WalksAll map.now };

    #[inline]
    fn into_iter(self) -> Iter<'a, K, V>
        ensures into_iter_gives { WalksAll self.entry.now result }
    {
        self.iter()
    }
}
