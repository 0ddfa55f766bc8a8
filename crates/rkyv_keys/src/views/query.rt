//! A view of a valid key is hashed and compared in place.

ghost use Rattle.std.specs.Prelude.{◌≡◌};
ghost use Rattle.rkyv_base.specs.{IsValidView};
ghost use Rattle.rkyv_keys.specs.{at_view, key_view, view_calls, view_fits};
ghost use Rattle.rkyv_keys.specs.Lemmas.OfViews.{view_query};

use crate::hash::KeyHash;
use crate::keys::{KeyElement, Query};
use crate::views::KeyView;
use rkyv_base::{HasSpec, View};
use rkyv_scan::KeyHasher;

impl<'a, K: HasSpec> KeyView<'a, K> {
    /// Returns the key of a view as a query.
    #[inline]
    pub fn of(view: View<'a, K>) -> KeyView<'a, K>
        requires { IsValidView K.spec view }
        ensures { key_view result ≡ view.entry }
    {
        KeyView { view }
    }
}

impl<'a, K: KeyElement> KeyHash for KeyView<'a, K> {
    ghost calls = { view_calls K.key_calls };

    #[inline]
    fn hash<H: KeyHasher>(&self, state: &mut H) {
        K::hash_view(self.view, state);
    }
}

impl<'a, K: KeyElement> Query<K> for KeyView<'a, K> {
    ghost fits = { view_fits K.same };

    #[inline]
    fn same(&self, key: View<'_, K>) -> bool
        requires { IsValidView K.spec key }
        ensures { result ≡ at_view (view_fits K.same self.now) key.entry }
    {
        K::same(self.view, key)
    }

    ghost query = { view_query K.equivalence K.key };
}
