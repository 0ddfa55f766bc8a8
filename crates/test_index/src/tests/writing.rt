//! Tests of the written bytes of index maps and index sets, and of the errors of a write.

use crate::tests::archives::{
    map_in_a_map, no_pairs, no_wide_pairs, one_key_twice, one_pair, wide_key, wide_pair,
};
use crate::tests::headers::{map_resolver, set_resolver};
use rkyv_base::access::access;
use rkyv_base::{
    IteratorLengthMismatch, LimitFault, LimitWriter, Narrow, NoMemory, Serialize, VecWriter,
    VerifyError, Wide, WriteError, to_bytes, to_bytes_in, write_root,
};
use rkyv_index::map::laws::written::{
    listed_pairs_are_written, ordered_pairs_are_written, written_index_maps_represent,
};
use rkyv_index::set::laws::written::written_index_sets_represent;
use rkyv_index::{ArchivedIndexMap, IndexMapOf, IndexWidth, OrderedItems, OrderedPairs};
use rkyv_keys::{KeyElement, NativeKey};
use rkyv_scan::FxHasher64;
use std::alloc::{AllocError, Global};
use std::process::Abort;
use std::test::Fail;
use test_support::archives::four_entries;

fn list_of(alloc: Global, pairs: &[(i8, i8)]) -> Result<OrderedPairs<i8, i8>, AllocError> {
    let mut list = Vec::new(alloc);
    for pair in pairs {
        list.push(*pair)?;
    }
    Ok(OrderedPairs(list))
}

// Returns the archive of a list of pairs as an index map.
fn map_archive<W: IndexWidth, A: Serialize<VecWriter, W>, B: Serialize<VecWriter, W>>(
    alloc: Global,
    list: &OrderedPairs<A, B>,
) -> Result<Vec<u8>, WriteError<NoMemory>>
where
    A::Archived: KeyElement,
    A: NativeKey<A::Archived>,
{
    to_bytes_in::<W, _>(alloc, list)
}

// Returns the archive of the pairs as an index map.
pub(crate) fn narrow(alloc: Global, pairs: &[(i8, i8)]) -> Result<Vec<u8>, WriteError<NoMemory>> {
    match list_of(alloc, pairs) {
        Ok(list) => map_archive::<Narrow, _, _>(alloc, &list),
        Err(_) => Err(WriteError::Memory),
    }
}

// Returns the archive of the pairs as a wide index map.
pub(crate) fn wide(alloc: Global, pairs: &[(i8, i8)]) -> Result<Vec<u8>, WriteError<NoMemory>> {
    match list_of(alloc, pairs) {
        Ok(list) => map_archive::<Wide, _, _>(alloc, &list),
        Err(_) => Err(WriteError::Memory),
    }
}

// Returns the archive of the items as an index set.
pub(crate) fn set_archive(alloc: Global, items: &[i8]) -> Result<Vec<u8>, Fail> {
    let mut list = Vec::new(alloc);
    for item in items {
        list.push(*item)?;
    }
    Ok(to_bytes(alloc, &OrderedItems(list))?)
}

// Fails the test unless a write succeeds, with this archive.
pub(crate) fn expect_archive(
    rt: &impl Abort,
    written: Result<Vec<u8>, WriteError<NoMemory>>,
    expected: &[u8],
) -> Result<(), Fail> {
    let bytes = written?;
    expect_eq!(*rt; bytes.as_slice(), expected);
    Ok(())
}

#[test]
fn pairs_are_written(rt: HostRuntime) -> Result<(), Fail> {
    listed_pairs_are_written::<Narrow, FxHasher64, i8, i8, i8, i8>();
    ordered_pairs_are_written::<Narrow, i8, i8, i8, i8>();
    written_index_maps_represent::<Narrow, FxHasher64, i8, i8, i8, i8>();
    written_index_sets_represent::<Narrow, FxHasher64, i8, i8>();
    let alloc = rt.alloc();
    expect_archive(&rt, narrow(alloc, &[]), &no_pairs())?;
    expect_archive(&rt, narrow(alloc, &[(1, 2)]), &one_pair())?;
    let four = narrow(alloc, &[(1, 2), (3, 4), (5, 6), (7, 8)]);
    expect_archive(&rt, four, &four_entries())?;
    expect_archive(&rt, narrow(alloc, &[(1, 2), (1, 9)]), &one_key_twice())?;
    expect_archive(&rt, wide(alloc, &[]), &no_wide_pairs())?;
    expect_archive(&rt, wide(alloc, &[(1, 2)]), &wide_pair())?;
    Ok(())
}

#[test]
fn a_wide_item_is_written(rt: HostRuntime) -> Result<(), Fail> {
    let list = OrderedItems(vec![in rt.alloc(); 1i8]?);
    expect_archive(&rt, to_bytes_in::<Wide, _>(rt.alloc(), &list), &wide_key())
}

// Returns the value of the key 1 in the value of the key 1, or 0.
fn inner_value(bytes: &[u8]) -> Result<i8, VerifyError> {
    let root = access::<IndexMapOf<i8, IndexMapOf<i8, i8>>>(bytes)?;
    match ArchivedIndexMap::of(root).get_full(&1) {
        Some((_, _, inner)) => match ArchivedIndexMap::of(inner).get_full(&1) {
            Some((_, _, value)) => Ok(value.to_native()),
            None => Ok(0),
        },
        None => Ok(0),
    }
}

#[test]
fn an_index_map_of_index_maps(rt: HostRuntime) -> Result<(), Fail> {
    let alloc = rt.alloc();
    let inner = list_of(alloc, &[(1, 2)])?;
    let outer = OrderedPairs(vec![in alloc; (1i8, inner)]?);
    let bytes = map_archive::<Narrow, _, _>(alloc, &outer)?;
    expect_eq!(rt; bytes.as_slice(), map_in_a_map().as_slice());
    expect_eq!(rt; inner_value(bytes.as_slice()), Ok(2));
    Ok(())
}

// Writes the pairs as an index map at position 0, with a claimed length.
// Returns the bytes before the header.
fn written(
    alloc: Global,
    pairs: Vec<(i8, i8)>,
    len: usize,
    load_factor: (usize, usize),
) -> Result<Vec<u8>, WriteError<NoMemory>> {
    let mut writer = VecWriter::new(alloc);
    let resolver = ArchivedIndexMap::<i8, i8, FxHasher64, Narrow>::serialize_from_iter::<
        VecWriter,
        i8,
        i8,
        i8,
        i8,
        _,
    >(alloc, pairs.into_iter(), len, load_factor, &mut writer)?;
    let _len = resolver.len();
    Ok(writer.into_vec())
}

// Returns the error of a write of the pair of 1 and 2 under a claimed length.
fn failure(
    alloc: Global,
    len: usize,
    load_factor: (usize, usize),
) -> Result<Option<WriteError<NoMemory>>, Fail> {
    Ok(written(alloc, vec![in alloc; (1, 2)]?, len, load_factor).err())
}

#[test]
fn bad_load_factors_and_lengths(rt: HostRuntime) -> Result<(), Fail> {
    expect_eq!(rt; failure(rt.alloc(), 2, (8, 7))?,
        Some(WriteError::InvalidLoadFactor { numerator: 8, denominator: 7 }));
    expect_eq!(rt; failure(rt.alloc(), 1, (1, 4294967296))?,
        Some(WriteError::CapacityTooLarge { len: 1 }));
    let (too_few, too_many) = (mismatch(3, 1), mismatch(0, 1));
    expect_eq!(rt; failure(rt.alloc(), 3, (7, 8))?, Some(too_few));
    expect_eq!(rt; failure(rt.alloc(), 0, (7, 8))?, Some(too_many));
    Ok(())
}

fn mismatch(expected: usize, actual: usize) -> WriteError<NoMemory> {
    WriteError::IteratorLengthMismatch(IteratorLengthMismatch { expected, actual })
}

#[test]
fn resolvers_have_the_given_load_factor(rt: HostRuntime) -> Result<(), Fail> {
    for load_factor in [(1, 1), (1, 2)] {
        let map = map_resolver(rt.alloc(), &[(1, 2), (3, 4)], load_factor)?;
        let set = set_resolver(rt.alloc(), &[1], load_factor)?;
        expect_eq!(rt; (map.len(), map.load_factor()), (2, load_factor));
        expect_eq!(rt; (set.len(), set.load_factor()), (1, load_factor));
    }
    Ok(())
}

// Writes the map of 1 to 2 with a limit. Returns `true` if the writer keeps the first `limit`
// bytes, and fails with `Full` if and only if these are not all.
fn keeps_a_prefix(alloc: Global, list: &OrderedPairs<i8, i8>, limit: u64) -> bool {
    let mut writer = LimitWriter::new(VecWriter::new(alloc), limit);
    let as_expected = match write_root(alloc, list, &mut writer) {
        Ok(pos) => limit == 60 && pos == 44,
        Err(WriteError::Writer(LimitFault::Full)) => limit < 60,
        Err(_) => false,
    };
    as_expected && one_pair().get(..limit as usize) == Some(writer.into_inner().bytes())
}

#[test]
fn a_full_writer(rt: HostRuntime) -> Result<(), Fail> {
    let alloc = rt.alloc();
    let list = list_of(alloc, &[(1, 2)])?;
    let mut writer = LimitWriter::new(VecWriter::new(alloc), 40);
    assert!(rt;
        matches!(
            write_root(alloc, &list, &mut writer),
            Err(WriteError::Writer(LimitFault::Full))
        )
    );
    for limit in 0..61 {
        expect_eq!(rt; (limit, keeps_a_prefix(alloc, &list, limit)), (limit, true));
    }
    Ok(())
}
