//! The errors of invalid archives.

use rkyv_base::{Element, VerifyError, Width, access_in, access_mut_in};

/// Returns the error of `access_in`, or `None` if it succeeds.
pub(crate) fn access_failure<W: Width, T: Element>(bytes: &[u8]) -> Option<VerifyError> {
    match access_in::<W, T>(bytes) {
        Ok(_) => None,
        Err(error) => Some(error),
    }
}

/// Returns the error of `access_mut_in`, or `None` if it succeeds.
pub(crate) fn access_mut_failure<W: Width, T: Element>(bytes: &mut [u8]) -> Option<VerifyError> {
    match access_mut_in::<W, T>(bytes) {
        Ok(_) => None,
        Err(error) => Some(error),
    }
}
