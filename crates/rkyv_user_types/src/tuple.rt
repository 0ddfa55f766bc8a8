//! Types that are archived as a tuple of copies of their parts.
//!
//! A type implements `AsTuple`, and `FromTuple` to be deserialized. `TupleEntry` wraps a value
//! to archive it. Take it for three parts and more, if they can be copied.

ghost use Rattle.rkyv_user_types.specs.{RepresentsAsPair};
ghost use Rattle.std.specs.Prelude.{◌≡◌};
ghost use Rattle.rkyv_base.specs.{pair_format, written_as};
ghost use Rattle.rkyv_base.specs.Lemmas.Pairs.{pair_local};
ghost use Rattle.rkyv_user_types.specs.Lemmas.Wrapped.{pair_as_format};

use rkyv_base::{
    Archive, Entry, EntryResolver, Represents, ResolveResult, Serialize, Width, WriteResult, Writer,
};
use std::alloc::Global;

/// A type that returns copies of its parts as a tuple, which is `(A, (B, C))` for three parts.
///
/// # Examples
///
/// ```rust
/// impl AsTuple for Pixel {
///     type First = u8;
///
///     type Second = (u16, u16);
///
///     ghost tuple = { λ pixel. (pixel.level, (pixel.x, pixel.y)) };
///
///     fn tuple(&self) -> (u8, (u16, u16)) {
///         (self.level, (self.x, self.y))
///     }
/// }
/// ```
pub trait AsTuple {
    /// The type of the first part.
    type First;

    /// The type of the second part, or of the pair of the parts behind the first.
    type Second;

    // The tuple of a value's parts.
    ghost tuple: { Self → Self.First × Self.Second };

    /// Returns the parts.
    fn tuple(&self) -> (Self::First, Self::Second)
        ensures { result ≡ tuple self.now };
}

/// A type that is rebuilt from its tuple by deserialization.
pub trait FromTuple: AsTuple {
    /// Returns a value with these parts.
    fn from_tuple(first: Self::First, second: Self::Second) -> Self
        ensures { Self.tuple result ≡ (first, second) };
}

/// A value that is archived, hashed and compared as the tuple of its parts.
///
/// Three parts are nested pairs, each padded to its own alignment, so a struct that rkyv derives
/// may be smaller.
#[derive(Clone, Copy, Debug, Drop)]
pub struct TupleEntry<T>(pub T);

impl<T: AsTuple, K: Represents<T::First>, V: Represents<T::Second>> Represents<TupleEntry<T>>
    for Entry<K, V> {
    ghost represents = { RepresentsAsPair K.spec V.spec K.represents V.represents
        (λ x. T.tuple x.0) };

    ghost local = { λ x.
        pair_local K.spec V.spec K.laws V.laws K.represents V.represents K.local
        V.local (T.tuple x.0) };
}

impl<
    W: Width,
    A: Archive<W> + Drop,
    B: Archive<W> + Drop,
    T: AsTuple<First = A, Second = B>,
> Archive<W> for TupleEntry<T> {
    type Archived = Entry<A::Archived, B::Archived>;

    type Resolver = EntryResolver<A::Resolver, B::Resolver>;

    ghost format = { written_as (λ x. T.tuple x.0)
        (pair_format A.Archived.spec B.Archived.spec A.format B.format) };

    #[inline]
    fn resolve(&self, resolver: Self::Resolver, pos: u64, out: &mut [u8]) -> ResolveResult {
        let tuple = self.0.tuple();
        <(A, B) as Archive<W>>::resolve(&tuple, resolver, pos, out)
    }

    ghost laws = { pair_as_format (λ x. T.tuple x.0) A.Archived.laws B.Archived.laws A.laws
        B.laws };
}

impl<
    S: Writer,
    W: Width,
    A: Serialize<S, W> + Drop,
    B: Serialize<S, W> + Drop,
    T: AsTuple<First = A, Second = B>,
> Serialize<S, W> for TupleEntry<T> {
    #[inline]
    fn serialize(&self, alloc: Global, serializer: &mut S) -> WriteResult<Self::Resolver, S> {
        let tuple = self.0.tuple();
        <(A, B) as Serialize<S, W>>::serialize(&tuple, alloc, serializer)
    }
}
