//! Hash maps, sets, index maps and containers of numbers and of texts behind a C interface.
//!
//! A slice is passed as a pointer, then a length in elements. A parameter `alloc` has no bytes: C
//! passes nothing for it. `clients/c` has the header for C programs. Its functions check their
//! arguments before they call the functions of this crate.
//!
//! A call that returns a `u32` returns a status: 0 on success, otherwise one of its errors.
#![tactic(auto)]

mod archives;
mod containers;
mod interface;
mod lookup;
mod overwrite;
mod texts;
