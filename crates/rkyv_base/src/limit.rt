//! A writer with a limit on its bytes.
//!
//! `LimitWriter` passes pieces to an inner writer. Its fault is `Full` at the limit, or the fault
//! of the inner writer.

ghost use Rattle.std.specs.Prelude.{IfErr, MatchResult, OnErr, OnOk, length, min, ◌+◌, ◌-◌, ◌<◌};
ghost use Rattle.std.specs.Prelude.{◌^◌, ◌≡◌, ◌≤◌};
ghost use Rattle.rkyv_base.specs.{Appends, Counts, Faults, InnerFaults, InnerTook, LimitWriteFails};
ghost use Rattle.rkyv_base.specs.{bytes_left, end_of, failure_count, inner_writer, limited};

use crate::writer::Writer;
use thiserror::Error;

/// The fault of a writer with a limit.
#[derive(Clone, Copy, Debug, PartialEq, Eq, Error)]
pub enum LimitFault<F> {
    /// The piece doesn't fit in the rest of the limit. The prefix that fits was written.
    #[error("limit reached")]
    Full,
    /// The inner writer failed.
    #[error("inner writer fault")]
    Inner(F),
}

/// A writer that passes pieces to an inner writer, up to a limit of bytes.
///
/// Its position is the inner writer's, and its count of failures its own. All bytes that the inner
/// writer appends count against the limit, even of a piece on which it fails.
#[derive(Drop)]
pub struct LimitWriter<W> {
    inner: W,
    left: u64,
    failures: u64,
}

impl<W: Writer> LimitWriter<W> {
    /// Returns a writer that passes at most `limit` bytes to the inner writer.
    pub fn new(inner: W, limit: u64) -> LimitWriter<W>
        ensures inner { inner_writer result ≡ inner }
        ensures limit { bytes_left result ≡ limit }
        ensures failures { failure_count result ≡ 0 }
    {
        LimitWriter {
            inner,
            left: limit,
            failures: 0,
        }
    }

    /// Returns the inner writer.
    pub fn into_inner(self) -> W
        ensures { result ≡ inner_writer self }
    {
        self.inner
    }

    #[inline]
    fn count_failure(&mut self)
        ensures counted { self.new.failures ≡ min (self.old.failures + 1) (2 ^ 64 - 1) }
        ensures kept { self.old.failures ≤ self.new.failures }
        ensures inner { self.new.inner ≡ self.old.inner }
        ensures left { self.new.left ≡ self.old.left }
    {
        self.failures = self.failures.saturating_add(1);
    }

    fn pass_on(&mut self, bytes: &[u8]) -> Result<(), LimitFault<W::Fault>>
        requires end { end_of (limited W.output self.old) + length bytes.now < 2 ^ 64 }
        requires fits { length bytes.now ≤ self.old.left }
        ensures counts { Counts W.output self.old self.new }
        ensures result { MatchResult result
            (λ _. InnerTook W.output self.old self.new bytes.now)
            (InnerFaults W.output self.old self.new bytes.now) }
    {
        let before = self.inner.pos();
        match self.inner.write(bytes) {
            Ok(()) => {
                self.left -= bytes.len() as u64;
                Ok(())
            }
            Err(fault) => {
                self.left -= self.inner.pos() - before;
                self.count_failure();
                Err(LimitFault::Inner(fault))
            }
        }
    }
}

impl<W: Writer> Writer for LimitWriter<W> {
    type Fault = LimitFault<W::Fault>;

    ghost output = { limited W.output };

    #[inline]
    fn pos(&self) -> u64 {
        self.inner.pos()
    }

    #[inline]
    fn failures(&self) -> u64 {
        self.failures
    }

    /// Passes the prefix of the piece that fits in the rest of the limit to the inner writer.
    ///
    /// The inner writer is not called if nothing is left of the limit, unless the piece is empty.
    /// Fails with `Inner` if the inner writer fails on the prefix, or with `Full` if the piece
    /// doesn't fit.
    fn write(&mut self, bytes: &[u8]) -> Result<(), LimitFault<W::Fault>>
        requires { end_of (limited W.output self.old) + length bytes.now < 2 ^ 64 }
        ensures appends { let o = limited W.output self.old in let o' = limited W.output self.new in
            OnOk result (Appends o o' bytes.now) }
        ensures faults { let o = limited W.output self.old in let o' = limited W.output self.new in
            OnErr result (Faults o o' bytes.now) }
        ensures limit { Counts W.output self.old self.new }
        ensures inner { OnOk result (InnerTook W.output self.old self.new bytes.now) }
        ensures fault { IfErr result (LimitWriteFails W.output self.old self.new bytes.now) }
        ensures inner_unchanged { bytes_left self.old ≡ 0 → 0 < length bytes.now
            → inner_writer self.new ≡ inner_writer self.old }
    {
        let left = self.left as usize;
        if bytes.len() <= left {
            return self.pass_on(bytes);
        }
        if left == 0 {
            self.count_failure();
            return Err(LimitFault::Full);
        }
        self.pass_on(&bytes[..left])?;
        self.count_failure();
        Err(LimitFault::Full)
    }
}
