//! The implementations for byte strings, which are looked up by `&[u8]` and `Vec<u8>`.

ghost use Rattle.std.specs.Prelude.{◌≡◌, IsTrue, ◌↔◌, MatchResult};
ghost use Rattle.rkyv_base.specs.{AtView, IsByteStringOf, IsValidView, byte_string_spec};
ghost use Rattle.rkyv_base.specs.Lemmas.ByteStringWriting.{byte_string_as_format};
ghost use Rattle.rkyv_keys.specs.{after_calls, at_view, at_views, byte_string_calls};
ghost use Rattle.rkyv_keys.specs.{byte_string_fails, byte_string_fits, byte_string_key_calls};
ghost use Rattle.rkyv_keys.specs.{byte_string_same, same_bytes};
ghost use Rattle.rkyv_keys.specs.Lemmas.OfByteStrings.{byte_string_equivalence};
ghost use Rattle.rkyv_keys.specs.Lemmas.OfByteStrings.{byte_string_fits_its_equal};
ghost use Rattle.rkyv_keys.specs.Lemmas.OfByteStrings.{byte_string_key, byte_string_once};
ghost use Rattle.rkyv_keys.specs.Lemmas.OfByteStrings.{byte_string_query};

use crate::debug::ElementDebug;
use crate::deserialize::Deserialize;
use crate::equality::{
    ElementEq, ElementEquiv, EqualsUniquely, EqualsWritten, MatchesNative, RepresentsUniquely,
};
use crate::hash::KeyHash;
use crate::keys::{KeyElement, NativeKey, NativeQuery, Query};
use rkyv_base::{Bytes, ReadError, View, Width};
use rkyv_scan::KeyHasher;
use std::alloc::Global;
use std::fmt::{self, Debug, Formatter, Write};

impl KeyHash for &[u8] {
    ghost calls = { λ s. byte_string_calls s.now };

    #[inline]
    fn hash<H: KeyHasher>(&self, state: &mut H) {
        state.write_usize(self.len());
        state.write(self);
    }
}

impl KeyHash for Vec<u8> {
    ghost calls = { λ v. byte_string_calls v.items };

    #[inline]
    fn hash<H: KeyHasher>(&self, state: &mut H) {
        self.as_slice().hash(state);
    }
}

impl<W: Width> ElementEq for Bytes<W> {
    ghost same = { byte_string_same W.word };

    #[inline]
    fn same(a: View<'_, Bytes<W>>, b: View<'_, Bytes<W>>) -> bool
        requires a { IsValidView (byte_string_spec W.word) a }
        requires b { IsValidView (byte_string_spec W.word) b }
        ensures { result ≡ at_views (byte_string_same W.word) a.entry b.entry }
    {
        a.as_slice() == b.as_slice()
    }
}

impl<W: Width> ElementEquiv for Bytes<W> {
    ghost equivalence = { byte_string_equivalence W.word };
}

impl<W: Width> KeyElement for Bytes<W> {
    ghost key_calls = { byte_string_key_calls W.word };

    #[inline]
    fn hash_view<H: KeyHasher>(view: View<'_, Bytes<W>>, state: &mut H)
        requires { IsValidView (byte_string_spec W.word) view }
        ensures { let calls = byte_string_key_calls W.word in
            state.new ≡ after_calls H.hasher state.old (at_view calls view.entry) }
    {
        view.as_slice().hash(state);
    }

    ghost key = { byte_string_key W.word };
}

impl<W: Width> Query<Bytes<W>> for &[u8] {
    ghost fits = { byte_string_fits W.word (λ q. q.now) };

    #[inline]
    fn same(&self, key: View<'_, Bytes<W>>) -> bool
        requires { IsValidView (byte_string_spec W.word) key }
        ensures { result ≡ at_view (byte_string_fits W.word (λ q. q.now) self.now) key.entry }
    {
        *self == key.as_slice()
    }

    ghost query = { byte_string_query W.word (λ q. q.now) };
}

impl<W: Width> Query<Bytes<W>> for Vec<u8> {
    ghost fits = { byte_string_fits W.word (λ q. q.items) };

    #[inline]
    fn same(&self, key: View<'_, Bytes<W>>) -> bool
        requires { IsValidView (byte_string_spec W.word) key }
        ensures { result ≡ at_view (byte_string_fits W.word (λ q. q.items) self.now) key.entry }
    {
        self.as_slice() == key.as_slice()
    }

    ghost query = { byte_string_query W.word (λ q. q.items) };
}

impl<W: Width> NativeKey<Bytes<W>> for &[u8] {
    ghost native = { byte_string_fits_its_equal W.word (λ q. q.now) (λ q. q.now) };
}

impl<W: Width> NativeKey<Bytes<W>> for Vec<u8> {
    ghost native = { byte_string_fits_its_equal W.word (λ q. q.items) (λ q. q.items) };
}

impl<W: Width> NativeQuery<Vec<u8>, Bytes<W>> for &[u8] {
    ghost equals = { λ q a. same_bytes q.now a.items };

    ghost finds = { byte_string_fits_its_equal W.word (λ q. q.now) (λ a. a.items) };
}

impl<W: Width> NativeQuery<&[u8], Bytes<W>> for Vec<u8> {
    ghost equals = { λ q a. same_bytes q.items a.now };

    ghost finds = { byte_string_fits_its_equal W.word (λ q. q.items) (λ a. a.now) };
}

impl<W: Width> MatchesNative<&[u8]> for Bytes<W> {
    ghost equals = { IsByteStringOf W.word (λ t. t.now) };

    #[inline]
    fn eq_native(view: View<'_, Bytes<W>>, value: &&[u8]) -> bool
        requires { IsValidView (byte_string_spec W.word) view }
        ensures { IsTrue result
            ↔ AtView (IsByteStringOf W.word (λ t. t.now)) view.entry value.now }
    {
        view.as_slice() == *value
    }
}

impl<W: Width> MatchesNative<Vec<u8>> for Bytes<W> {
    ghost equals = { IsByteStringOf W.word (λ v. v.items) };

    #[inline]
    fn eq_native(view: View<'_, Bytes<W>>, value: &Vec<u8>) -> bool
        requires { IsValidView (byte_string_spec W.word) view }
        ensures { IsTrue result
            ↔ AtView (IsByteStringOf W.word (λ v. v.items)) view.entry value.now }
    {
        view.as_slice() == value.as_slice()
    }
}

impl<W: Width> Deserialize<Vec<u8>> for Bytes<W> {
    ghost deserialize_fails = { byte_string_fails W.word };

    #[inline]
    fn deserialize(alloc: Global, view: View<'_, Bytes<W>>) -> Result<Vec<u8>, ReadError>
        requires { IsValidView (byte_string_spec W.word) view }
        ensures { MatchResult result
            (AtView (IsByteStringOf W.word (λ v. v.items)) view.entry)
            (AtView (byte_string_fails W.word) view.entry) }
    {
        let bytes = view.as_slice();
        if bytes.is_empty() {
            return Ok(Vec::new(alloc));
        }
        Ok(Vec::from_slice(alloc, bytes)?)
    }
}

impl<W: Width> ElementDebug for Bytes<W> {
    fn debug<U: Write>(view: View<'_, Bytes<W>>, f: &mut Formatter<U>) -> fmt::Result
        requires { IsValidView (byte_string_spec W.word) view }
    {
        view.as_slice().fmt(f)
    }
}

impl<'t, W: Width> EqualsWritten<W> for &'t [u8] {
    ghost equal = { byte_string_as_format W.word W.layout.kind (λ t. t.now) };
}

impl<W: Width> EqualsWritten<W> for Vec<u8> {
    ghost equal = { byte_string_as_format W.word W.layout.kind (λ v. v.items) };
}

impl<'t, W: Width> EqualsUniquely<&'t [u8]> for Bytes<W> {
    ghost once = { byte_string_once W.word (λ t. t.now) };
}

impl<W: Width> EqualsUniquely<Vec<u8>> for Bytes<W> {
    ghost once = { byte_string_once W.word (λ v. v.items) };
}

impl<'t, W: Width> RepresentsUniquely<&'t [u8]> for Bytes<W> {
    ghost once = { byte_string_once W.word (λ t. t.now) };
}

impl<W: Width> RepresentsUniquely<Vec<u8>> for Bytes<W> {
    ghost once = { byte_string_once W.word (λ v. v.items) };
}
