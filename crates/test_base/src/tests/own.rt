//! Tests of user-defined types that implement the traits.
ghost use Rattle.std.specs.Prelude.{[], length, ⊤, ◌≡◌};
ghost use Rattle.std.specs.Int.{w32};
ghost use Rattle.std.proofs.Common.{inl, inr, lit≤, refl};
ghost use Rattle.rkyv_base.specs.Lemmas.AnyBytes.{any_bytes-element};
ghost use Rattle.rkyv_base.specs.{any_bytes, no_overflow, nothing_next, scalar_spec, unsigned};
ghost use Rattle.rkyv_base.specs.Lemmas.Numbers.{unsigned_codes};
ghost use Rattle.rkyv_base.specs.Lemmas.Scalar.{scalar_element, scalar_laws};

use crate::tests::access_failures::access_failure;
use rkyv_base::access::access;
use rkyv_base::{
    Archive, Element, Entry, HasSpec, Narrow, PartRange, Represents, ResolveResult, Scalar,
    Serialize, VecWriter, VerifyError, Width, WriteError, WriteResult, Writer, laws, to_bytes,
    whole_size,
};
use std::alloc::Global;
use test_support::written::is_archived_as;

// A user-defined scalar.
#[derive(Clone, Copy, Debug, PartialEq, Eq)]
struct Grams(u32);

impl HasSpec for Grams {
    ghost spec = { scalar_spec (unsigned w32) };

    ghost laws = { scalar_element (unsigned w32) (inr (inr (inl refl))) (unsigned_codes w32) };
}

impl Scalar for Grams {
    ghost encoding = { record {
      word = w32;
      code = λ g. g.0;
      value = λ n. record { 0 = n };
      IsCode =
          λ n. ⊤;
    } };

    fn byte_count() -> usize {
        4
    }

    fn is_value(_bytes: &[u8]) -> bool {
        true
    }

    fn read(bytes: &[u8]) -> Grams {
        Grams(u32::read(bytes))
    }

    fn write(self, bytes: &mut [u8]) {
        self.0.write(bytes);
    }

    ghost laws = { scalar_laws _ (inr (inr (inl refl))) };
}

// A user-defined element, of the greatest size. All bytes are valid for it.
struct Huge;

impl HasSpec for Huge {
    ghost spec = { any_bytes 1073741824 1 };

    ghost laws = { any_bytes-element 1073741824 1 (inl refl) refl (lit≤ tt) };
}

impl Element for Huge {
    fn size() -> usize {
        1_073_741_824
    }

    fn align() -> usize {
        1
    }

    fn check(_bytes: &[u8], _pos: u64, range: PartRange) -> Result<PartRange, VerifyError> {
        Ok(range)
    }
}

impl Represents<Huge> for Huge {
    ghost represents = { λ b p v. ⊤ };

    ghost local = { λ v b c p lo hi l o h same part st. st };
}

impl<W: Width> Archive<W> for Huge {
    type Archived = Huge;

    type Resolver = ();

    ghost format = { record {
      parts = λ v p part r. part ≡ [];
      next = nothing_next;
      image = λ v r p out. length out ≡ 1073741824;
      overflow = no_overflow;
    } };

    fn resolve(&self, _resolver: (), _pos: u64, _out: &mut [u8]) -> ResolveResult {
        Ok(())
    }

    ghost laws = { record {
      size_exact = λ v r p out i. i;
      exclusive = λ v r p out i f. f;
      sound = λ v r c p0 p part out h i s t o al. (p0, refl, tt);
    } };
}

impl<S: Writer, W: Width> Serialize<S, W> for Huge {
    fn serialize(&self, _alloc: Global, _serializer: &mut S) -> WriteResult<(), S> {
        Ok(())
    }
}

// Returns the value of an entry of a `bool` and such a scalar.
fn grams_of(bytes: &[u8]) -> Result<Grams, VerifyError> {
    let entry = access::<Entry<bool, Grams>>(bytes)?;
    Ok(entry.value().to_native())
}

#[test]
fn an_own_scalar_is_archived(rt: HostRuntime) {
    let bytes = [1, 0, 0, 0, 2, 1, 0, 0];
    expect_eq!(rt; is_archived_as(rt.alloc(), &(true, Grams(258)), &bytes), true);
    expect_eq!(rt; grams_of(&bytes), Ok(Grams(258)));
}

// Returns `true` if archiving a value fails with `Refused(0)`.
fn write_fails<V: Serialize<VecWriter, Narrow>>(alloc: Global, value: &V) -> bool {
    matches!(to_bytes(alloc, value), Err(WriteError::Refused(0)))
}

#[test]
fn rejects_entries_that_are_too_large(rt: HostRuntime) {
    laws::largest_element();
    expect_eq!(rt; <Entry<Huge, ()> as Element>::size(), 1_073_741_824);
    expect_eq!(rt; whole_size::<Huge, u16>(), 1_073_741_826);
    expect_eq!(rt; <Entry<Huge, u16> as Element>::size(), 0);
    expect_eq!(rt; <Entry<Huge, u16> as Element>::align(), 2);
    expect_eq!(rt; access_failure::<Narrow, Entry<Huge, ()>>(&[]),
        Some(VerifyError::OutOfRange { pos: -1_073_741_824, size: 1_073_741_824 }));
    expect_eq!(rt; access_failure::<Narrow, Entry<Huge, u16>>(&[]), Some(VerifyError::Refused(0)));
    expect_eq!(rt; write_fails(rt.alloc(), &(Huge, 7u16)), true);
    expect_eq!(rt; write_fails(rt.alloc(), &(1u8, (7u16, Huge))), true);
}
