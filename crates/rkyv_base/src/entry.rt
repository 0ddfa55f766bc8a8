//! Entries: a key followed by a value.
//!
//! The layout of an `Entry` is the key, padding up to the value's alignment, the value,
//! and padding up to the greater alignment. `value_offset` and `whole_size` return its offsets.

ghost use Rattle.std.specs.Prelude.{◌≡◌, ◌+◌, ◌<◌, ◌≤◌, ◌^◌};
ghost use Rattle.rkyv_base.specs.{entry_spec, round_up, value_offset, whole_size};
ghost use Rattle.rkyv_base.specs.Lemmas.Entry.{entry_element};

use crate::element::{Element, HasSpec, PartRange};
use crate::errors::VerifyError;
use std::marker::PhantomData;

/// The greatest size of an element, in bytes.
pub const MAX_ELEMENT_SIZE: usize = 1_073_741_824;

/// A key followed by a value, as in an archive.
///
/// An entry of more than 1,073,741,824 bytes can't be archived. Its size is 0,
/// and its validation fails with `Refused(0)`.
pub struct Entry<K, V> {
    key: PhantomData<K>,
    value: PhantomData<V>,
}

#[inline]
fn rounded_up(n: usize, align: usize) -> usize
    requires aligned { 0 < align }
    requires small { n + align < 2 ^ 32 }
    ensures { result ≡ round_up n align }
{
    n + (align - n % align) % align
}

/// Returns the offset of the value of an entry from the position of the entry.
#[inline]
pub fn value_offset<K: Element, V: Element>() -> usize
    ensures value { result ≡ value_offset K.spec V.spec }
    ensures bound { result ≤ 1073741832 }
{
    rounded_up(K::size(), V::align())
}

/// Returns the size of an entry in bytes, even if it is greater than `MAX_ELEMENT_SIZE`.
#[inline]
pub fn whole_size<K: Element, V: Element>() -> usize
    ensures { result ≡ whole_size K.spec V.spec }
{
    let offset = value_offset::<K, V>();
    rounded_up(offset + V::size(), K::align().max(V::align()))
}

impl<K: HasSpec, V: HasSpec> HasSpec for Entry<K, V> {
    ghost spec = { entry_spec K.spec V.spec };

    ghost laws = { entry_element K.spec V.spec K.laws V.laws };
}

impl<K: Element, V: Element> Element for Entry<K, V> {
    #[inline]
    fn size() -> usize {
        let whole = whole_size::<K, V>();
        if whole <= MAX_ELEMENT_SIZE { whole } else { 0 }
    }

    #[inline]
    fn align() -> usize {
        K::align().max(V::align())
    }

    #[inline]
    fn check(bytes: &[u8], pos: u64, range: PartRange) -> Result<PartRange, VerifyError> {
        if whole_size::<K, V>() > MAX_ELEMENT_SIZE {
            return Err(VerifyError::Refused(0));
        }
        let offset = value_offset::<K, V>() as u64;
        let rest = K::check(bytes, pos, range)?;
        V::check(bytes, pos + offset, rest)
    }
}
