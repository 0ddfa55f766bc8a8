//! The number of the interface of this library.

/// Does nothing: its name has the number of the interface.
///
/// A program that refers to it does not link with a library of another interface. The number
/// becomes the next one if a function, a struct or the meaning of a code changes.
#[unsafe(no_mangle)]
pub extern "C" fn hk_c_interface_5() {}
