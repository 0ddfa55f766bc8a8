//! Writers near the greatest position of a narrow archive, writers that fail, and writers that keep
//! the lengths of their pieces.
ghost use Rattle.std.specs.Prelude.{[], min, ◌+◌, ◌-◌, ◌^◌, ◌≡◌, ◌≤◌};

use rkyv_base::Writer;
use std::alloc::Global;

/// A writer into memory whose first position is 4,294,967,290.
#[derive(Drop)]
pub struct LateWriter {
    bytes: Vec<u8>,
    failures: u64,
}

/// The writer failed to allocate.
#[derive(Debug, Drop)]
pub struct NoRoom;

impl LateWriter {
    /// Returns a writer without bytes.
    pub fn new(alloc: Global) -> LateWriter {
        LateWriter {
            bytes: Vec::new(alloc),
            failures: 0,
        }
    }

    /// Returns the written bytes.
    pub fn bytes(&self) -> &[u8] {
        self.bytes.as_slice()
    }
}

impl Writer for LateWriter {
    type Fault = NoRoom;

    ghost output = { λ w. record {
      start = 4294967290;
      bytes = w.bytes.items;
      failures =
          w.failures;
    } };

    fn pos(&self) -> u64 {
        4_294_967_290 + self.bytes.len() as u64
    }

    fn failures(&self) -> u64 {
        self.failures
    }

    fn write(&mut self, bytes: &[u8]) -> Result<(), NoRoom> {
        match self.bytes.extend_from_slice(bytes) {
            Ok(()) => Ok(()),
            Err(_) => {
                self.failures = self.failures.saturating_add(1);
                Err(NoRoom)
            }
        }
    }
}

/// A writer that fails at every write, and counts the writes.
#[derive(Drop)]
pub struct BrokenWriter {
    failures: u64,
    calls: u8,
}

/// A write failed; no byte is written.
#[derive(Debug, Drop)]
pub struct Broken;

impl BrokenWriter {
    /// Returns a writer with a number of earlier failures.
    pub fn new(failures: u64) -> BrokenWriter {
        BrokenWriter { failures, calls: 0 }
    }

    /// Returns the number of writes, at most 255.
    pub fn calls(&self) -> u8 {
        self.calls
    }
}

impl Writer for BrokenWriter {
    type Fault = Broken;

    ghost output = { λ w. record { start = 0; bytes = []; failures = w.failures } };

    fn pos(&self) -> u64 {
        0
    }

    fn failures(&self) -> u64 {
        self.failures
    }

    fn write(&mut self, _bytes: &[u8]) -> Result<(), Broken> {
        self.calls = self.calls.saturating_add(1);
        self.failures = self.failures.saturating_add(1);
        Err(Broken)
    }
}

/// A writer into memory that keeps the length of each piece.
#[derive(Drop)]
pub struct PieceWriter {
    bytes: Vec<u8>,
    lengths: Vec<usize>,
    failures: u64,
}

impl PieceWriter {
    /// Returns a writer without bytes and pieces.
    pub fn new(alloc: Global) -> PieceWriter {
        PieceWriter {
            bytes: Vec::new(alloc),
            lengths: Vec::new(alloc),
            failures: 0,
        }
    }

    /// Returns the written bytes.
    pub fn bytes(&self) -> &[u8] {
        self.bytes.as_slice()
    }

    /// Returns the length of each piece, in the order of the writes.
    pub fn lengths(&self) -> &[usize] {
        self.lengths.as_slice()
    }

    // Counts a failure.
    fn count_failure(&mut self)
        ensures counted { self.new.failures ≡ min (self.old.failures + 1) (2 ^ 64 - 1) }
        ensures kept { self.old.failures ≤ self.new.failures }
        ensures bytes { self.new.bytes ≡ self.old.bytes }
    {
        self.failures = self.failures.saturating_add(1);
    }
}

impl Writer for PieceWriter {
    type Fault = NoRoom;

    ghost output = { λ w. record { start = 0; bytes = w.bytes.items; failures = w.failures } };

    fn pos(&self) -> u64 {
        self.bytes.len() as u64
    }

    fn failures(&self) -> u64 {
        self.failures
    }

    fn write(&mut self, bytes: &[u8]) -> Result<(), NoRoom> {
        if self.lengths.push(bytes.len()).is_err() {
            self.count_failure();
            return Err(NoRoom);
        }
        match self.bytes.extend_from_slice(bytes) {
            Ok(()) => Ok(()),
            Err(_) => {
                self.count_failure();
                Err(NoRoom)
            }
        }
    }
}
