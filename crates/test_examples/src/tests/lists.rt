//! Tests of `example_lists`.

mod containers;
mod in_place;
mod index_maps;
mod maps;
mod maps_of_std;
mod sets;

use rkyv_base::VerifyError;

// Returns the bytes without the first `count`, or none if there are fewer.
fn without_first(bytes: &[u8], count: usize) -> &[u8] {
    &bytes[count.min(bytes.len())..]
}

// Returns the position and the size of an error `OutOfRange`, or `None` for all other results.
fn out_of_range<T: Drop>(found: Result<T, VerifyError>) -> Option<(i128, u128)> {
    match found {
        Err(VerifyError::OutOfRange { pos, size }) => Some((pos, size)),
        _ => None,
    }
}
