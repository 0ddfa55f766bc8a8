//! Equality of index sets, and counting the keys that aren't found at their own index.
ghost use Rattle.std.specs.Cmp.{partial_equiv_from_equiv};
ghost use Rattle.std.specs.Prelude.{◌≡◌};
ghost use Rattle.rkyv_base.specs.{IsValidView, entry_spec, unit_spec};
ghost use Rattle.rkyv_base.specs.Lemmas.Empty.{unit_element};
ghost use Rattle.rkyv_base.specs.Lemmas.Entry.{entry_element};
ghost use Rattle.rkyv_keys.specs.Lemmas.OfEntries.{entry_equivalence};
ghost use Rattle.rkyv_keys.specs.Lemmas.OfUnits.{unit_equivalence};
ghost use Rattle.rkyv_keys.specs.{archived_keys, at_views};
ghost use Rattle.rkyv_index.specs.Lemmas.EqualLaws.{index_equivalence};
ghost use Rattle.rkyv_index.specs.{CountsRepeated, CountsUpTo, index_misplaced, index_of_set};
ghost use Rattle.rkyv_index.specs.{index_set_equal, index_set_spec, index_sets_equal};
ghost use Rattle.rkyv_index.specs.Lemmas.HandlesEqual.{sets_equality};

use crate::set::{ArchivedIndexSet, IndexSetOf};
use crate::width::IndexWidth;
use rkyv_base::View;
use rkyv_keys::{ElementEq, ElementEquiv, KeyElement};
use rkyv_scan::KeyHasher;

impl<'a, K: ElementEq, H, W: IndexWidth> ArchivedIndexSet<'a, K, H, W> {
    /// Returns `true` if both sets have the same keys in the same order.
    pub fn eq_index(self, other: ArchivedIndexSet<'_, K, H, W>) -> bool
        ensures { result ≡ index_sets_equal K.same self.entry other.entry }
    {
        self.map.eq_index(other.map)
    }
}

impl<'a, K: KeyElement, H: KeyHasher, W: IndexWidth> ArchivedIndexSet<'a, K, H, W> {
    /// Counts the keys whose index `get_index_of` of the same key doesn't return.
    ///
    /// In a written set, these are the keys that equal an earlier key. The cost is as for
    /// `ArchivedIndexMap::misplaced`.
    pub fn misplaced(self) -> usize
        ensures exact { result ≡ index_misplaced (index_of_set self.entry)
            (archived_keys H.KeyHasher K.KeyElement) }
        ensures repeated { CountsRepeated (index_of_set self.entry)
            (archived_keys H.KeyHasher K.KeyElement) result }
    {
        self.map.misplaced()
    }

    /// Counts as `misplaced` does, or returns `None` if the lookups read more than `limit` strides.
    ///
    /// The cost is as for `ArchivedIndexMap::misplaced_up_to`.
    pub fn misplaced_up_to(self, limit: u64) -> Option<usize>
        ensures { CountsUpTo (index_of_set self.entry) (archived_keys H.KeyHasher K.KeyElement)
            limit result }
    {
        self.map.misplaced_up_to(limit)
    }
}

/// Compares as `eq_index` does.
impl<'a, K: ElementEquiv, H, W: IndexWidth> PartialEq for ArchivedIndexSet<'a, K, H, W> {
    ghost eq = { index_sets_equal K.same };

    ghost laws = { partial_equiv_from_equiv (sets_equality K.equivalence) };

    fn eq(&self, other: &ArchivedIndexSet<'a, K, H, W>) -> bool
        ensures { result ≡ index_sets_equal K.same self.now other.now }
    {
        self.eq_index(*other)
    }
}

impl<'a, K: ElementEquiv, H, W: IndexWidth> Eq for ArchivedIndexSet<'a, K, H, W> {
    ghost laws = { sets_equality K.equivalence };
}

impl<K: ElementEq, H, W: IndexWidth> ElementEq for IndexSetOf<K, H, W> {
    ghost same = { index_set_equal W.word K.spec K.same };

    #[inline]
    fn same(a: View<'_, IndexSetOf<K, H, W>>, b: View<'_, IndexSetOf<K, H, W>>) -> bool
        requires a { IsValidView (index_set_spec W.word K.spec) a }
        requires b { IsValidView (index_set_spec W.word K.spec) b }
        ensures { result ≡ at_views (index_set_equal W.word K.spec K.same) a.entry b.entry }
    {
        ArchivedIndexSet::of(a).eq_index(ArchivedIndexSet::of(b))
    }
}

impl<K: ElementEquiv, H, W: IndexWidth> ElementEquiv for IndexSetOf<K, H, W> {
    ghost equivalence = { index_equivalence W.word (entry_spec K.spec unit_spec)
        (entry_element K.spec unit_spec K.laws unit_element) (entry_equivalence K.laws
        unit_element K.equivalence unit_equivalence) };
}
