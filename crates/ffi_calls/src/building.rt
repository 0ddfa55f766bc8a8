//! Archives of lists of items, as any collection.
//!
//! `build` writes the archive of the items, and leaks its bytes to the caller.

ghost use Rattle.std.specs.Prelude.{IfErr, IfOk, MatchOption, MatchResult, [], vec_capacity};
ghost use Rattle.std.specs.Prelude.{vec_len, ◌≡◌, ◌≤◌, Err, false, true};
ghost use Rattle.rkyv_keys.specs.{fx_format};
ghost use Rattle.ffi_calls.specs.{ArchiveFails, ArePairsOf, BuildsByCodes, CanBuild, HasNoPair};
ghost use Rattle.ffi_calls.specs.{IsPairOf, IsWritten, PairsFail, WritesArchive, WritesItems};
ghost use Rattle.ffi_calls.specs.{archive_width, collection_of, fx_pairs, index_width};
ghost use Rattle.ffi_calls.specs.{key_members, types_by, types_of, value_members};

use crate::any_value::{AnyPair, AnyValue};
use crate::collection::{Collection, collection_of};
use crate::containers::Codes;
use crate::from_any::FromAny;
use crate::status::{DONE, NO_MEMORY, UNKNOWN_CODES, or_status};
use crate::types::{KeyFrom, Operation, StoredKey, StoredValue, ValueFrom, dispatch};
use rkyv_base::{NoMemory, Serialize, VecWriter, Width, WriteError, to_bytes_in};
use rkyv_collections::{KeyElement, MapPairs, NativeKey};
use rkyv_index::{IndexWidth, OrderedPairs};
use std::alloc::Global;

/// Returns an empty vector with room for `len` items, or `NO_MEMORY` if the allocation fails.
fn reserved<T>(alloc: Global, len: usize) -> Result<Vec<T>, u32>
    ensures { MatchResult result
        (λ v. (v.items ≡ []) × (vec_len v ≡ 0) × (len ≤ vec_capacity v)) (λ status. status ≡ 12) }
{
    Vec::with_capacity(alloc, len).map_err(|_| NO_MEMORY)
}

/// Returns the pair of native values of an item, or the status of the first one without a value.
fn pair_of<'a, A: FromAny<AnyValue<'a>>, B: FromAny<AnyValue<'a>>>(
    item: &AnyPair<'a>,
) -> Result<(A, B), u32>
    ensures { MatchResult result (IsPairOf A.FromAny B.FromAny item.now)
        (HasNoPair A.FromAny B.FromAny item.now) }
{
    let key = A::from_any(item.key)?;
    let value = B::from_any(item.value)?;
    Ok((key, value))
}

/// Returns the pairs of the items.
fn pairs_of<'a, A: FromAny<AnyValue<'a>>, B: FromAny<AnyValue<'a>>>(
    alloc: Global,
    items: &[AnyPair<'a>],
) -> Result<Vec<(A, B)>, u32>
    ensures { MatchResult result (λ pairs. ArePairsOf A.FromAny B.FromAny items.now pairs.items)
        (PairsFail A.FromAny B.FromAny items.now) }
{
    let mut pairs = reserved(alloc, items.len())?;
    for item in items {
        let pair = pair_of::<A, B>(item)?;
        pairs.push_reserved(pair);
    }
    Ok(pairs)
}

/// Writes the archive of the pairs, in insertion order, under the load factor 7 / 8.
fn archive_of<
    A: NativeKey<A::Archived> + Serialize<VecWriter, W>,
    B: Serialize<VecWriter, W>,
    W: Width,
>(alloc: Global, list: &[(A, B)]) -> Result<Vec<u8>, WriteError<NoMemory>>
where
    A::Archived: KeyElement,
    ensures ok { IfOk result (λ v. IsWritten W.Width
        (fx_format A.Archived.spec B.Archived.spec A.format B.format A.calls)
        (fx_pairs A.Archived.represents B.Archived.represents A.Archived.key_calls) list.now
        v.items) }
    ensures err { IfErr result (ArchiveFails (archive_width W.Width)
        (fx_format A.Archived.spec B.Archived.spec A.format B.format A.calls) list.now) }
{
    to_bytes_in::<W, MapPairs<'_, A, B>>(alloc, &MapPairs::new(list))
}

/// Writes the archive of the items as a hash map, under the load factor 7 / 8.
fn map_of<
    'a,
    A: KeyFrom<AnyValue<'a>, K, W>,
    B: ValueFrom<AnyValue<'a>, V, W>,
    K: StoredKey<A>,
    V: StoredValue<B>,
    W: IndexWidth,
>(alloc: Global, items: &[AnyPair<'a>]) -> Result<Vec<u8>, u32>
    ensures { WritesItems (types_by false (index_width W.Width W.Index.spec W.Index.encoding)
        (key_members A.KeyFrom K.StoredKey) (value_members B.ValueFrom V.StoredValue)) items.now
        result }
{
    let pairs = pairs_of::<A, B>(alloc, items)?;
    or_status(archive_of::<A, B, W>(alloc, pairs.as_slice()))
}

/// Writes the archive of the items as an index map, in their order, under the load factor 7 / 8.
fn index_of<
    'a,
    A: KeyFrom<AnyValue<'a>, K, W>,
    B: ValueFrom<AnyValue<'a>, V, W>,
    K: StoredKey<A>,
    V: StoredValue<B>,
    W: IndexWidth,
>(alloc: Global, items: &[AnyPair<'a>]) -> Result<Vec<u8>, u32>
    ensures { WritesItems (types_by true (index_width W.Width W.Index.spec W.Index.encoding)
        (key_members A.KeyFrom K.StoredKey) (value_members B.ValueFrom V.StoredValue)) items.now
        result }
{
    let pairs = pairs_of::<A, B>(alloc, items)?;
    or_status(to_bytes_in::<W, _>(alloc, &OrderedPairs(pairs)))
}

/// The write of the archive of a list of items.
#[derive(Clone, Copy)]
pub(crate) struct Building<'a> {
    alloc: Global,
    items: &'a [AnyPair<'a>],
}

impl<'a> Operation<AnyValue<'a>, u8> for Building<'a> {
    type Out = Result<Vec<u8>, u32>;

    ghost pre = { CanBuild };

    ghost post = { WritesArchive };

    #[inline]
    fn run<
        A: KeyFrom<AnyValue<'a>, K, W>,
        B: ValueFrom<AnyValue<'a>, V, W>,
        K: StoredKey<A>,
        V: StoredValue<B>,
        W: IndexWidth,
    >(self, indexed: bool, _out: &mut [u8]) -> Result<Vec<u8>, u32> {
        if indexed {
            index_of::<A, B, K, V, W>(self.alloc, self.items)
        } else {
            map_of::<A, B, K, V, W>(self.alloc, self.items)
        }
    }
}

/// Writes the archive of the items as a collection.
fn collection_from<'a>(
    alloc: Global,
    of: Collection,
    items: &'a [AnyPair<'a>],
) -> Result<Vec<u8>, u32>
    ensures { WritesItems (types_of of) items.now result }
{
    let building = Building { alloc, items };
    dispatch(of, building, &mut [])
}

/// Writes the archive of the items as the collection with the codes.
fn archive_by<'a>(alloc: Global, codes: Codes, items: &'a [AnyPair<'a>]) -> Result<Vec<u8>, u32>
    ensures { MatchOption (collection_of codes) (result ≡ Err 7)
        (λ c. WritesItems (types_of c) items.now result) }
{
    match collection_of(codes) {
        Some(of) => collection_from(alloc, of, items),
        None => Err(UNKNOWN_CODES),
    }
}

/// The bytes of an archive, leaked to the caller: this crate neither reads nor frees them again.
#[repr(C)]
pub struct Built<'a> {
    /// The bytes of the archive.
    pub bytes: &'a mut [u8],
}

/// Leaks the bytes of an archive into `built`, or returns the status of the error.
fn leak_into<'a>(archive: Result<Vec<u8>, u32>, built: &mut Built<'a>) -> u32
    ensures { MatchResult archive
        (λ v. (result ≡ 0) × (built.new.bytes.now ≡ v.items))
        (λ status. (result ≡ status) × (built.new ≡ built.old)) }
{
    match archive {
        Ok(bytes) => {
            built.bytes = bytes.leak();
            DONE
        }
        Err(status) => status,
    }
}

/// Writes the archive of the items as the collection with the codes, and leaks its bytes into
/// `built`.
///
/// The items are inserted in order, and items with equal keys are kept. The load factor is 7 / 8.
/// A number, a `bool` and a character are read from `number`, texts and byte strings from `bytes`.
/// The values of a set are not read.
///
/// # Errors
///
/// - `UNKNOWN_CODES`: no collection of this library has the codes.
/// - `NO_MEMORY`: an allocation fails.
/// - `VALUE_TOO_LARGE` or `NOT_TEXT`, of the first item with an error, the key before the value: a
///   number is of no value of its type, or the bytes of a text aren't UTF-8.
/// - 23 to 29: the status of the write error.
///
/// After an error `built` is unchanged.
pub fn build<'a>(
    alloc: Global,
    codes: Codes,
    items: &'a [AnyPair<'a>],
    built: &mut Built<'_>,
) -> u32
    ensures { BuildsByCodes codes items.now built.old result built.new }
{
    leak_into(archive_by(alloc, codes, items), built)
}
