//! Comparisons of bytes and lengths, and of the entries that an iteration visits.
use crate::errors::Difference;
use std::alloc::{AllocError, Global};
use std::fmt::Display;

/// Fails unless the written bytes are the bytes of the line.
///
/// # Errors
///
/// - `Bytes`: the first position where one has another byte, or has ended.
pub fn same_bytes(written: &[u8], given: &[u8]) -> Result<(), Difference> {
    if written == given {
        return Ok(());
    }
    let shorter = written.len().min(given.len());
    let differs = written.iter().zip(given).position(|(a, b)| a != b);
    Err(Difference::Bytes(differs.unwrap_or(shorter)))
}

/// Fails unless the length is the number of entries.
///
/// # Errors
///
/// - `Len`: it is another number.
pub fn same_len(len: usize, entries: usize) -> Result<(), Difference> {
    (len == entries).then_some(()).ok_or(Difference::Len(len))
}

/// Returns the difference of the lookup of a key.
pub fn lookup_differs<A: Display>(alloc: Global, key: &A) -> Difference {
    match format!(in alloc; "{key}") {
        Ok(key) => Difference::Lookup(key),
        Err(failure) => Difference::Memory(failure),
    }
}

/// The entries that an iteration has visited, by index.
#[derive(Drop)]
pub struct Visits {
    visited: Vec<bool>,
}

impl Visits {
    /// Returns the visits of no entry, of `count` entries.
    pub fn new(alloc: Global, count: usize) -> Result<Visits, AllocError> {
        Ok(Visits {
            visited: vec![in alloc; false; count]?,
        })
    }

    /// Visits an entry. Returns `false` if there is none or it was visited before.
    pub fn visit(&mut self, index: Option<usize>) -> bool {
        let Some(index) = index else {
            return false;
        };
        match self.visited.get_mut(index) {
            Some(visited) => !std::mem::replace(visited, true),
            None => false,
        }
    }

    /// Fails unless each entry was visited.
    ///
    /// # Errors
    ///
    /// - `Iteration`: an entry wasn't visited.
    pub fn all(&self) -> Result<(), Difference> {
        (self.visited.iter().all(|visited| *visited))
            .then_some(())
            .ok_or(Difference::Iteration)
    }
}
