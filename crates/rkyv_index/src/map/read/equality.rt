//! Equality of index maps.
//!
//! `==` and `eq_index` compare the pairs in order. `ElementEq` does the same for index maps
//! that are values.
ghost use Rattle.std.specs.Cmp.{partial_equiv_from_equiv};
ghost use Rattle.std.specs.Prelude.{◌≡◌};
ghost use Rattle.rkyv_base.specs.{IsValidView, entry_spec};
ghost use Rattle.rkyv_base.specs.Lemmas.Entry.{entry_element};
ghost use Rattle.rkyv_keys.specs.Lemmas.OfEntries.{entry_equivalence};
ghost use Rattle.rkyv_keys.specs.{at_views};
ghost use Rattle.rkyv_index.specs.Lemmas.EqualLaws.{index_equivalence};
ghost use Rattle.rkyv_index.specs.Lemmas.HandlesEqual.{maps_equality};
ghost use Rattle.rkyv_index.specs.{index_map_equal, index_maps_equal, index_spec};

use crate::map::{ArchivedIndexMap, IndexMapOf};
use crate::width::IndexWidth;
use rkyv_base::{Entry, View};
use rkyv_keys::{ElementEq, ElementEquiv};

impl<'a, K: ElementEq, V: ElementEq, H, W: IndexWidth> ArchivedIndexMap<'a, K, V, H, W> {
    /// Returns `true` if both maps have the same pairs in the same order.
    pub fn eq_index(self, other: ArchivedIndexMap<'_, K, V, H, W>) -> bool
        ensures { result ≡ index_maps_equal K.same V.same self.entry other.entry }
    {
        let len = self.len();
        if len != other.len() {
            return false;
        }
        for index in 0..len {
            if !Entry::<K, V>::same(self.entry(index), other.entry(index)) {
                return false;
            }
        }
        true
    }
}

/// Compares as `eq_index` does.
impl<'a, K: ElementEquiv, V: ElementEquiv, H, W: IndexWidth> PartialEq
    for ArchivedIndexMap<'a, K, V, H, W> {
    ghost eq = { index_maps_equal K.same V.same };

    ghost laws = { partial_equiv_from_equiv (maps_equality K.equivalence V.equivalence) };

    fn eq(&self, other: &ArchivedIndexMap<'a, K, V, H, W>) -> bool
        ensures { result ≡ index_maps_equal K.same V.same self.now other.now }
    {
        self.eq_index(*other)
    }
}

impl<'a, K: ElementEquiv, V: ElementEquiv, H, W: IndexWidth> Eq
    for ArchivedIndexMap<'a, K, V, H, W> {
    ghost laws = { maps_equality K.equivalence V.equivalence };
}

impl<K: ElementEq, V: ElementEq, H, W: IndexWidth> ElementEq for IndexMapOf<K, V, H, W> {
    ghost same = { index_map_equal W.word K.spec V.spec K.same V.same };

    #[inline]
    fn same(a: View<'_, IndexMapOf<K, V, H, W>>, b: View<'_, IndexMapOf<K, V, H, W>>) -> bool
        requires a { IsValidView (index_spec W.word (entry_spec K.spec V.spec)) a }
        requires b { IsValidView (index_spec W.word (entry_spec K.spec V.spec)) b }
        ensures { result ≡ at_views (index_map_equal W.word K.spec V.spec K.same V.same)
            a.entry b.entry }
    {
        ArchivedIndexMap::of(a).eq_index(ArchivedIndexMap::of(b))
    }
}

impl<K: ElementEquiv, V: ElementEquiv, H, W: IndexWidth> ElementEquiv for IndexMapOf<K, V, H, W> {
    ghost equivalence = { index_equivalence W.word (entry_spec K.spec V.spec)
        (entry_element K.spec V.spec K.laws V.laws) (entry_equivalence K.laws V.laws K.equivalence
        V.equivalence) };
}
