//! A map of numbers in a container.

use example_lists::containers::{NUMBERS, number_in, write_container};
use example_lists::maps::{NumberPairs, number_of};
use rkyv_collections::MapPairs;
use rkyv_container::{ContainerError, ItemType, Width, open_as};
use std::alloc::Global;
use std::test::Fail;

// Returns a container of three pairs, two of them with the key 7.
fn container(alloc: Global) -> Result<Vec<u8>, Fail> {
    let pairs = [(7, 70), (9, u64::MAX), (7, 71)];
    let list: NumberPairs<'_> = MapPairs::new(&pairs);
    write_container(alloc, &list)
}

#[test]
fn the_first_number_in_a_container_is_found(rt: HostRuntime) -> Result<(), Fail> {
    let file = container(rt.alloc())?;
    let bytes = file.as_slice();
    expect_eq!(rt; number_in(bytes, 7)?, Some(70));
    expect_eq!(rt; number_in(bytes, 9)?, Some(u64::MAX));
    expect_eq!(rt; number_in(bytes, 0)?, None);
    Ok(())
}

// The four bytes of the contents are at position 10 of a container.
#[test]
fn a_container_records_its_contents(rt: HostRuntime) -> Result<(), Fail> {
    let file = container(rt.alloc())?;
    let contents = &file.as_slice()[10.min(file.len())..14.min(file.len())];
    assert_eq!(rt; contents, [1, 20, 24, 8].as_slice());
    Ok(())
}

// Returns the error of opening a container without its last byte.
fn cut_off(file: &[u8]) -> Option<ContainerError> {
    open_as(&file[..file.len().saturating_sub(1)], NUMBERS).err()
}

// The archive has 120 bytes. Zeros without a container are the archive of an empty map.
#[test]
fn a_file_that_is_cut_off_or_of_zeros_is_not_opened(rt: HostRuntime) -> Result<(), Fail> {
    let file = container(rt.alloc())?;
    let expected = ContainerError::WrongLength {
        expected: 120,
        found: 119,
    };
    expect_eq!(rt; cut_off(file.as_slice()), Some(expected));
    expect_eq!(rt; open_as(&[0; 160], NUMBERS).err(), Some(ContainerError::WrongMagic));
    expect_eq!(rt; number_of(&[0; 160], 7)?, None);
    Ok(())
}

#[test]
fn a_container_of_other_contents_is_not_opened(rt: HostRuntime) -> Result<(), Fail> {
    let file = container(rt.alloc())?;
    let mut narrow = NUMBERS;
    narrow.width = Width::Narrow;
    let mut of_texts = NUMBERS;
    of_texts.key = ItemType::Text;
    let expected = [
        Some(ContainerError::WrongWidth {
            expected: Width::Narrow,
            found: Width::Wide,
        }),
        Some(ContainerError::WrongKeyType {
            expected: ItemType::Text,
            found: ItemType::U32,
        }),
    ];
    let errors = [
        open_as(file.as_slice(), narrow).err(),
        open_as(file.as_slice(), of_texts).err(),
    ];
    expect_eq!(rt; errors, expected);
    Ok(())
}
