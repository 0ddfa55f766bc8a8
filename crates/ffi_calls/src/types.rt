//! The types of collections, and the one place that leads from them to the types of elements.
//!
//! An `Operation` is generic over the types of keys and values, and over the width. `dispatch`
//! calls it for the types of a `Collection`.

ghost use Rattle.std.specs.Prelude.{List};
ghost use Rattle.ffi_calls.specs.Lemmas.AnyValues.{byte_strings_agree, numbers_agree};
ghost use Rattle.ffi_calls.specs.Lemmas.AnyValues.{texts_agree, units_agree};
ghost use Rattle.ffi_calls.specs.{Agrees, HasNumber, IsAny, IsTextFor, Types, index_width};
ghost use Rattle.ffi_calls.specs.{key_members, key_type_of, types_by, types_of, value_members};
ghost use Rattle.ffi_calls.specs.{value_type_of};
ghost use Rattle.ffi_calls.specs.declared.any_value.AnyValue.{AnyValue};

use crate::any_value::{AnyValue, Number, ToAny};
use crate::collection::{Collection, KeyType, ValueType};
use crate::from_any::FromAny;
use rkyv_base::{Archive, Bytes, Narrow, Represents, Serialize, Text, VecWriter, Wide, Width};
use rkyv_index::IndexWidth;
use rkyv_keys::{KeyElement, NativeKey, ScalarKey};

/// An element of keys, whose native type is `A`.
pub trait StoredKey<A>: KeyElement + Represents<A> + ToAny {
    // The stored value is a native key's.
    ghost is_of: { AnyValue → A → Type 0 };

    ghost agrees: { Agrees Self.any Self.represents is_of };
}

impl<N: ScalarKey + Number> StoredKey<N> for N {
    ghost is_of = { HasNumber N.encoding };

    ghost agrees = { numbers_agree N.encoding };
}

impl<'a, W: Width> StoredKey<&'a str> for Text<W> {
    ghost is_of = { IsTextFor };

    ghost agrees = { texts_agree W.word };
}

/// An element of values, whose native type is `B`.
pub trait StoredValue<B>: Represents<B> + ToAny {
    // The stored value is a native value's.
    ghost is_of: { AnyValue → B → Type 0 };

    ghost agrees: { Agrees Self.any Self.represents is_of };
}

impl<N: Number> StoredValue<N> for N {
    ghost is_of = { HasNumber N.encoding };

    ghost agrees = { numbers_agree N.encoding };
}

impl<'a, W: Width> StoredValue<&'a str> for Text<W> {
    ghost is_of = { IsTextFor };

    ghost agrees = { texts_agree W.word };
}

impl<'a, W: Width> StoredValue<&'a [u8]> for Bytes<W> {
    ghost is_of = { IsTextFor };

    ghost agrees = { byte_strings_agree W.word };
}

impl StoredValue<()> for () {
    ghost is_of = { IsAny };

    ghost agrees = { units_agree };
}

/// A native type of keys that are archived as `K`.
pub trait KeyFrom<P, K: KeyElement + Represents<Self>, W: Width>: NativeKey<K>
    + FromAny<P>
    + Serialize<VecWriter, W>
    + Archive<W, Archived = K> {}

impl<'a, N: ScalarKey + Number, W: Width> KeyFrom<AnyValue<'a>, N, W> for N {}

impl<'a, W: Width> KeyFrom<AnyValue<'a>, Text<W>, W> for &'a str {}

/// A native type of values that are archived as `V`.
pub trait ValueFrom<P, V: Represents<Self>, W: Width>: FromAny<P>
    + Serialize<VecWriter, W>
    + Archive<W, Archived = V> {}

impl<'a, N: Number, W: Width> ValueFrom<AnyValue<'a>, N, W> for N {}

impl<'a, W: Width> ValueFrom<AnyValue<'a>, Text<W>, W> for &'a str {}

impl<'a, W: Width> ValueFrom<AnyValue<'a>, Bytes<W>, W> for &'a [u8] {}

impl<'a, W: Width> ValueFrom<AnyValue<'a>, (), W> for () {}

/// An operation on a collection, generic over its types, which may write to a slice.
pub(crate) trait Operation<P, X> {
    /// The result.
    type Out;

    // The condition of the operation, on the slice and the types.
    ghost pre: { Self → List X → Types P → Type 0 };

    // The result, and the slice after it.
    ghost post: { Self → List X → Types P → Self.Out → List X → Type 0 };

    /// Returns the result of the operation. An index map is `indexed`.
    fn run<
        A: KeyFrom<P, K, W>,
        B: ValueFrom<P, V, W>,
        K: StoredKey<A>,
        V: StoredValue<B>,
        W: IndexWidth,
    >(self, indexed: bool, out: &mut [X]) -> Self::Out
        requires { pre self out.old (types_by indexed
            (index_width W.Width W.Index.spec W.Index.encoding)
            (key_members A.KeyFrom K.StoredKey) (value_members B.ValueFrom V.StoredValue)) }
        ensures { post self out.old (types_by indexed
            (index_width W.Width W.Index.spec W.Index.encoding)
            (key_members A.KeyFrom K.StoredKey) (value_members B.ValueFrom V.StoredValue)) result
            out.new };
}

/// Calls an operation for the type of values.
#[inline(always)]
fn by_value<
    'a,
    A: KeyFrom<AnyValue<'a>, K, W>,
    K: StoredKey<A>,
    W: IndexWidth,
    X,
    O: Operation<AnyValue<'a>, X>,
>(of: Collection, operation: O, out: &mut [X]) -> O::Out
    requires { O.pre operation out.old (types_by of.indexed
        (index_width W.Width W.Index.spec W.Index.encoding)
        (key_members A.KeyFrom K.StoredKey) (value_type_of W.word of.value)) }
    ensures { O.post operation out.old (types_by of.indexed
        (index_width W.Width W.Index.spec W.Index.encoding)
        (key_members A.KeyFrom K.StoredKey) (value_type_of W.word of.value)) result out.new }
{
    match of.value {
        ValueType::U8 => operation.run::<A, u8, K, u8, W>(of.indexed, out),
        ValueType::U16 => operation.run::<A, u16, K, u16, W>(of.indexed, out),
        ValueType::U32 => operation.run::<A, u32, K, u32, W>(of.indexed, out),
        ValueType::U64 => operation.run::<A, u64, K, u64, W>(of.indexed, out),
        ValueType::Bool => operation.run::<A, bool, K, bool, W>(of.indexed, out),
        ValueType::Char => operation.run::<A, char, K, char, W>(of.indexed, out),
        ValueType::Text => operation.run::<A, &str, K, Text<W>, W>(of.indexed, out),
        ValueType::Bytes => operation.run::<A, &[u8], K, Bytes<W>, W>(of.indexed, out),
        ValueType::Unit => operation.run::<A, (), K, (), W>(of.indexed, out),
    }
}

/// Calls an operation for the types of keys and values.
#[inline(always)]
fn by_key<'a, W: IndexWidth, X, O: Operation<AnyValue<'a>, X>>(
    of: Collection,
    operation: O,
    out: &mut [X],
) -> O::Out
    requires { O.pre operation out.old (types_by of.indexed
        (index_width W.Width W.Index.spec W.Index.encoding)
        (key_type_of W.word of.key) (value_type_of W.word of.value)) }
    ensures { O.post operation out.old (types_by of.indexed
        (index_width W.Width W.Index.spec W.Index.encoding)
        (key_type_of W.word of.key) (value_type_of W.word of.value)) result out.new }
{
    match of.key {
        KeyType::U8 => by_value::<u8, u8, W, X, O>(of, operation, out),
        KeyType::U16 => by_value::<u16, u16, W, X, O>(of, operation, out),
        KeyType::U32 => by_value::<u32, u32, W, X, O>(of, operation, out),
        KeyType::U64 => by_value::<u64, u64, W, X, O>(of, operation, out),
        KeyType::Char => by_value::<char, char, W, X, O>(of, operation, out),
        KeyType::Text => by_value::<&str, Text<W>, W, X, O>(of, operation, out),
    }
}

/// Calls an operation for the types of a collection.
#[inline(always)]
pub(crate) fn dispatch<'a, X, O: Operation<AnyValue<'a>, X>>(
    of: Collection,
    operation: O,
    out: &mut [X],
) -> O::Out
    requires { O.pre operation out.old (types_of of) }
    ensures { O.post operation out.old (types_of of) result out.new }
{
    if of.wide {
        by_key::<Wide, X, O>(of, operation, out)
    } else {
        by_key::<Narrow, X, O>(of, operation, out)
    }
}
