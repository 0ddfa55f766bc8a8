//! Types that are archived as the pair of their parts, which they return by reference.
//!
//! A type implements `AsPair`, and `FromPair` to be deserialized. `PairEntry` wraps a value
//! to archive it.

ghost use Rattle.rkyv_user_types.specs.{RepresentsAsPair};
ghost use Rattle.std.specs.Prelude.{◌≡◌};
ghost use Rattle.rkyv_base.specs.{pair_format, written_as};
ghost use Rattle.rkyv_base.specs.Lemmas.Pairs.{pair_local};
ghost use Rattle.rkyv_user_types.specs.Lemmas.Wrapped.{pair_as_format};

use rkyv_base::{
    Archive, Entry, EntryAdapter, EntryResolver, Represents, ResolveResult, Serialize, Width,
    WriteResult, Writer,
};
use std::alloc::Global;

/// A type that returns its two parts by reference.
///
/// # Examples
///
/// ```rust
/// impl AsPair for Point {
///     type First = i32;
///
///     type Second = i32;
///
///     ghost pair = { λ point. (point.x, point.y) };
///
///     fn first(&self) -> &i32 {
///         &self.x
///     }
///
///     fn second(&self) -> &i32 {
///         &self.y
///     }
/// }
/// ```
pub trait AsPair {
    /// The type of the first part.
    type First;

    /// The type of the second part.
    type Second;

    // The two parts of a value.
    ghost pair: { Self → Self.First × Self.Second };

    /// Returns the first part.
    fn first(&self) -> &Self::First
        ensures { result.now ≡ (pair self.now).0 };

    /// Returns the second part.
    fn second(&self) -> &Self::Second
        ensures { result.now ≡ (pair self.now).1 };
}

/// A type that is rebuilt from its two parts by deserialization.
pub trait FromPair: AsPair {
    /// Returns a value with these parts.
    fn from_pair(first: Self::First, second: Self::Second) -> Self
        ensures { Self.pair result ≡ (first, second) };
}

/// A value that is archived, hashed and compared as the pair of its parts.
#[derive(Clone, Copy, Debug, Drop)]
pub struct PairEntry<T>(pub T);

impl<T: AsPair, K: Represents<T::First>, V: Represents<T::Second>> Represents<PairEntry<T>>
    for Entry<K, V> {
    ghost represents = { RepresentsAsPair K.spec V.spec K.represents V.represents
        (λ x. T.pair x.0) };

    ghost local = { λ x.
        pair_local K.spec V.spec K.laws V.laws K.represents V.represents K.local
        V.local (T.pair x.0) };
}

impl<W: Width, A: Archive<W>, B: Archive<W>, T: AsPair<First = A, Second = B>> Archive<W>
    for PairEntry<T> {
    type Archived = Entry<A::Archived, B::Archived>;

    type Resolver = EntryResolver<A::Resolver, B::Resolver>;

    ghost format = { written_as (λ x. T.pair x.0)
        (pair_format A.Archived.spec B.Archived.spec A.format B.format) };

    #[inline]
    fn resolve(&self, resolver: Self::Resolver, pos: u64, out: &mut [u8]) -> ResolveResult {
        let adapter: EntryAdapter<&A, &B, A, B> = EntryAdapter::new(
            self.0.first(),
            self.0.second(),
        );
        <EntryAdapter<&A, &B, A, B> as Archive<W>>::resolve(&adapter, resolver, pos, out)
    }

    ghost laws = { pair_as_format (λ x. T.pair x.0) A.Archived.laws B.Archived.laws A.laws B.laws };
}

impl<
    S: Writer,
    W: Width,
    A: Serialize<S, W>,
    B: Serialize<S, W>,
    T: AsPair<First = A, Second = B>,
> Serialize<S, W> for PairEntry<T> {
    #[inline]
    fn serialize(&self, alloc: Global, serializer: &mut S) -> WriteResult<Self::Resolver, S> {
        let adapter: EntryAdapter<&A, &B, A, B> = EntryAdapter::new(
            self.0.first(),
            self.0.second(),
        );
        <EntryAdapter<&A, &B, A, B> as Serialize<S, W>>::serialize(&adapter, alloc, serializer)
    }
}
