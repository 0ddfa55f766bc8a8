//! The implementations for text, which is looked up by `&str` and `String`.

ghost use Rattle.std.specs.Prelude.{◌≡◌, string_bytes, IsTrue, ◌↔◌, MatchResult};
ghost use Rattle.rkyv_base.specs.{AtView, IsTextOf, IsValidView, text_spec};
ghost use Rattle.rkyv_base.specs.Lemmas.TextWriting.{text_as_format};
ghost use Rattle.rkyv_keys.specs.{after_calls, at_view, at_views, same_bytes, text_fails};
ghost use Rattle.rkyv_keys.specs.{text_calls, text_fits, text_key_calls, text_same};
ghost use Rattle.rkyv_keys.specs.Lemmas.OfTexts.{text_equivalence, text_fits_its_equal, text_key};
ghost use Rattle.rkyv_keys.specs.Lemmas.OfTexts.{text_key_fixed, text_once, text_query};

use crate::debug::ElementDebug;
use crate::deserialize::Deserialize;
use crate::equality::{
    ElementEq, ElementEquiv, EqualsUniquely, EqualsWritten, MatchesNative, RepresentsUniquely,
};
use crate::hash::KeyHash;
use crate::keys::{FixedKey, KeyElement, NativeKey, NativeQuery, Query};
use rkyv_base::{ReadError, Text, View, Width};
use rkyv_scan::KeyHasher;
use std::alloc::Global;
use std::fmt::{self, Debug, Formatter, Write};

impl KeyHash for &str {
    ghost calls = { λ s. text_calls s.now };

    #[inline]
    fn hash<H: KeyHasher>(&self, state: &mut H) {
        state.write(self.as_bytes());
        state.write_u8(0xff);
    }
}

impl KeyHash for String {
    ghost calls = { λ s. text_calls (string_bytes s) };

    #[inline]
    fn hash<H: KeyHasher>(&self, state: &mut H) {
        self.as_str().hash(state);
    }
}

impl<W: Width> ElementEq for Text<W> {
    ghost same = { text_same W.word };

    #[inline]
    fn same(a: View<'_, Text<W>>, b: View<'_, Text<W>>) -> bool
        requires a { IsValidView (text_spec W.word) a }
        requires b { IsValidView (text_spec W.word) b }
        ensures { result ≡ at_views (text_same W.word) a.entry b.entry }
    {
        a.as_str() == b.as_str()
    }
}

impl<W: Width> ElementEquiv for Text<W> {
    ghost equivalence = { text_equivalence W.word };
}

impl<W: Width> KeyElement for Text<W> {
    ghost key_calls = { text_key_calls W.word };

    #[inline]
    fn hash_view<H: KeyHasher>(view: View<'_, Text<W>>, state: &mut H)
        requires { IsValidView (text_spec W.word) view }
        ensures { let calls = text_key_calls W.word in
            state.new ≡ after_calls H.hasher state.old (at_view calls view.entry) }
    {
        view.as_str().hash(state);
    }

    ghost key = { text_key W.word };
}

impl<W: Width> FixedKey for Text<W> {
    ghost fixed = { text_key_fixed W.word };
}

impl<W: Width> Query<Text<W>> for &str {
    ghost fits = { text_fits W.word (λ q. q.now) };

    #[inline]
    fn same(&self, key: View<'_, Text<W>>) -> bool
        requires { IsValidView (text_spec W.word) key }
        ensures { result ≡ at_view (text_fits W.word (λ q. q.now) self.now) key.entry }
    {
        *self == key.as_str()
    }

    ghost query = { text_query W.word (λ q. q.now) };
}

impl<W: Width> Query<Text<W>> for String {
    ghost fits = { text_fits W.word (λ q. string_bytes q) };

    #[inline]
    fn same(&self, key: View<'_, Text<W>>) -> bool
        requires { IsValidView (text_spec W.word) key }
        ensures { result ≡ at_view (text_fits W.word (λ q. string_bytes q) self.now) key.entry }
    {
        self.as_str() == key.as_str()
    }

    ghost query = { text_query W.word (λ q. string_bytes q) };
}

impl<W: Width> NativeKey<Text<W>> for &str {
    ghost native = { text_fits_its_equal W.word (λ q. q.now) (λ q. q.now) };
}

impl<W: Width> NativeKey<Text<W>> for String {
    ghost native = { text_fits_its_equal W.word (λ q. string_bytes q) (λ q. string_bytes q) };
}

impl<W: Width> NativeQuery<String, Text<W>> for &str {
    ghost equals = { λ q a. same_bytes q.now (string_bytes a) };

    ghost finds = { text_fits_its_equal W.word (λ q. q.now) (λ a. string_bytes a) };
}

impl<W: Width> NativeQuery<&str, Text<W>> for String {
    ghost equals = { λ q a. same_bytes (string_bytes q) a.now };

    ghost finds = { text_fits_its_equal W.word (λ q. string_bytes q) (λ a. a.now) };
}

impl<W: Width> MatchesNative<&str> for Text<W> {
    ghost equals = { IsTextOf W.word (λ t. t.now) };

    #[inline]
    fn eq_native(view: View<'_, Text<W>>, value: &&str) -> bool
        requires { IsValidView (text_spec W.word) view }
        ensures { IsTrue result ↔ AtView (IsTextOf W.word (λ t. t.now)) view.entry value.now }
    {
        view.as_str() == *value
    }
}

impl<W: Width> MatchesNative<String> for Text<W> {
    ghost equals = { IsTextOf W.word string_bytes };

    #[inline]
    fn eq_native(view: View<'_, Text<W>>, value: &String) -> bool
        requires { IsValidView (text_spec W.word) view }
        ensures { IsTrue result
            ↔ AtView (IsTextOf W.word string_bytes) view.entry value.now }
    {
        view.as_str() == value.as_str()
    }
}

impl<W: Width> Deserialize<String> for Text<W> {
    ghost deserialize_fails = { text_fails W.word };

    #[inline]
    fn deserialize(alloc: Global, view: View<'_, Text<W>>) -> Result<String, ReadError>
        requires { IsValidView (text_spec W.word) view }
        ensures { MatchResult result
            (AtView (IsTextOf W.word string_bytes) view.entry)
            (AtView (text_fails W.word) view.entry) }
    {
        let text = view.as_str();
        if text.is_empty() {
            return Ok(String::new(alloc));
        }
        Ok(String::from_str(alloc, text)?)
    }
}

impl<W: Width> ElementDebug for Text<W> {
    fn debug<U: Write>(view: View<'_, Text<W>>, f: &mut Formatter<U>) -> fmt::Result
        requires { IsValidView (text_spec W.word) view }
    {
        view.as_str().fmt(f)
    }
}

impl<'t, W: Width> EqualsWritten<W> for &'t str {
    ghost equal = { text_as_format W.word W.layout.kind (λ t. t.now) };
}

impl<W: Width> EqualsWritten<W> for String {
    ghost equal = { text_as_format W.word W.layout.kind string_bytes };
}

impl<'t, W: Width> EqualsUniquely<&'t str> for Text<W> {
    ghost once = { text_once W.word (λ t. t.now) };
}

impl<W: Width> EqualsUniquely<String> for Text<W> {
    ghost once = { text_once W.word string_bytes };
}

impl<'t, W: Width> RepresentsUniquely<&'t str> for Text<W> {
    ghost once = { text_once W.word (λ t. t.now) };
}

impl<W: Width> RepresentsUniquely<String> for Text<W> {
    ghost once = { text_once W.word string_bytes };
}
