//! Tables in wide archives.

use crate::tests::archives::hash_of_u32;
use crate::tests::reading::{counts, failure, first_pos, value_of, walks_over};
use rkyv_base::{
    Element, Entry, NoMemory, PartRange, VecWriter, VerifyError, Wide, WriteError, align_for_in,
    append_in,
};
use rkyv_scan::simd::lanes;
use rkyv_table::{ArchivedHashTable, TableOf};
use std::alloc::Global;
use test_support::archives::one_wide_number;

// Writes the archive of a table of the pairs, each under the hash of its first number.
fn write_archive(
    alloc: Global,
    pairs: &[(u32, u32)],
    writer: &mut VecWriter,
) -> Result<(), WriteError<NoMemory>> {
    let hashed = pairs.iter().map(|pair| (hash_of_u32(pair.0), pair));
    let resolver = ArchivedHashTable::<Entry<u32, u32>, Wide>::serialize_by::<
        lanes::Group,
        VecWriter,
        (u32, u32),
        &(u32, u32),
        _,
    >(alloc, hashed, pairs.len(), (7, 8), writer)?;
    let root = align_for_in::<Wide, u64, VecWriter>(writer)?;
    let (len, load_factor) = (resolver.len(), resolver.load_factor());
    let mut header = [0u8; 24];
    match ArchivedHashTable::<Entry<u32, u32>, Wide>::resolve_from_len(
        len,
        load_factor,
        resolver,
        root,
        &mut header,
    ) {
        Ok(()) => append_in::<Wide, VecWriter>(writer, &header),
        Err(_) => Err(WriteError::DistanceTooLarge),
    }
}

// Returns `true` if the bytes are those of such an archive.
fn is_archive(alloc: Global, pairs: &[(u32, u32)], bytes: &[u8]) -> bool {
    let mut writer = VecWriter::new(alloc);
    match write_archive(alloc, pairs, &mut writer) {
        Ok(()) => writer.bytes() == bytes,
        Err(_) => false,
    }
}

#[test]
fn wide_tables_are_written(rt: HostRuntime) {
    assert!(rt; is_archive(rt.alloc(), &[(1, 2)], &one_wide_number()));
    let header = [
        1, 0, 0, 0, 0, 0, 0, 0, 0, 0, 0, 0, 0, 0, 0, 0, 0, 0, 0, 0, 0, 0, 0, 0,
    ];
    expect_eq!(rt; is_archive(rt.alloc(), &[], &header), true);
    expect_eq!(rt; counts::<Entry<u32, u32>, Wide>(&header), Ok((0, 0)));
}

#[test]
fn wide_tables_are_read_and_validated(rt: HostRuntime) {
    let archive = one_wide_number();
    let bytes: &[u8] = &archive;
    expect_eq!(rt; <TableOf<u8, Wide> as Element>::size(), 24);
    expect_eq!(rt; <TableOf<u8, Wide> as Element>::align(), 8);
    expect_eq!(rt; value_of::<Wide>(bytes, hash_of_u32(1), 1), Ok((Some(2), 1)));
    expect_eq!(rt; value_of::<Wide>(bytes, hash_of_u32(2), 2), Ok((None, 1)));
    expect_eq!(rt; first_pos::<Entry<u32, u32>, Wide>(bytes, hash_of_u32(1)), Ok(Some(0)));
    expect_eq!(rt; walks_over::<Entry<u32, u32>, Wide>(bytes, &[1, 0, 0, 0, 2, 0, 0, 0]), Ok(true));
    expect_eq!(rt; counts::<Entry<u32, u32>, Wide>(bytes), Ok((1, 2)));
    let whole = PartRange { lo: 0, hi: 48 };
    assert!(rt;
        matches!(
            ArchivedHashTable::<Entry<u32, u32>, Wide>::verify(&one_wide_number(), 48, whole),
            Ok(PartRange { lo: 47, hi: 48 })
        )
    );
}

#[test]
fn rejects_large_wide_capacities(rt: HostRuntime) {
    let bytes = [
        0, 0, 0, 0, 0, 0, 0, 0, 1, 0, 0, 0, 0, 0, 0, 0, 0xff, 0xff, 0xff, 0xff, 0xff, 0xff, 0xff,
        0xff,
    ];
    expect_eq!(rt; failure::<Entry<u32, u32>, Wide>(&bytes),
        Some(VerifyError::OutOfRange { pos: -147_573_952_589_676_412_920,
        size: 166_020_696_663_385_964_551 }));
    let mut writer = VecWriter::new(rt.alloc());
    assert!(rt;
        matches!(
            ArchivedHashTable::<u8, Wide>::serialize_from_iter::<VecWriter, u8, u8, _, _>(
                rt.alloc(),
                [7u8].into_iter(),
                [0u64].into_iter(),
                4_611_686_018_427_387_904,
                (1, 1),
                &mut writer,
            ),
            Err(WriteError::CapacityTooLarge {
                len: 4_611_686_018_427_387_904,
            })
        )
    );
}
