//! Reading a table in place.
//!
//! - `verify` validates a table for the validator of an element.
//! - `of` decodes the header at a view of a valid table.
//! - `len`, `capacity` and `is_empty` are about the sizes in the header.
ghost use Rattle.std.specs.Prelude.{IsTrue, MatchResult, length, ◌%◌, ◌*◌, ◌+◌, ◌<◌, ◌↔◌, ◌≡◌, ◌≤◌};
ghost use Rattle.std.specs.Int.{byte_len};
ghost use Rattle.rkyv_base.specs.{Fails, IsValidView, Passes, bytes_of, pos_of};
ghost use Rattle.rkyv_table.specs.{IsDecoded, cap_at, len_at, table_bytes, table_header, table_pos};
ghost use Rattle.rkyv_table.specs.{table_spec, table_view};

use crate::controls::reciprocal::Reciprocal;
use crate::table::decoded::Decoded;
use crate::table::header::{controls_pos, read_header};
use crate::table::verify::verify_by;
use crate::table::{ArchivedHashTable, TableOf};
use rkyv_base::{Element, PartRange, VerifyError, View, Width};
use rkyv_scan::simd::lanes;

impl<'a, T: Element, W: Width> ArchivedHashTable<'a, T, W> {
    /// Validates the table whose header is at `pos`, and returns the rest of the range.
    ///
    /// The rest begins at the end of the control bytes. A header with length 0 and capacity 0 is
    /// valid, and nothing else is read, as in rkyv. Buckets aren't compared with the items' hashes.
    ///
    /// # Errors
    ///
    /// - `InvalidLength`: the length isn't below the capacity, and they aren't both 0.
    /// - `OutOfRange` or `Unaligned`: the buckets and control bytes aren't in the range or aligned.
    /// - The error of the first invalid item, in bucket order.
    /// - `WrongNumberOfElements`: the length isn't the number of full buckets.
    /// - `UnwrappedControlByte`: a control byte from the capacity on isn't as it must be.
    #[inline]
    pub fn verify(bytes: &[u8], pos: u64, range: PartRange) -> Result<PartRange, VerifyError>
        requires inside { pos + 3 * byte_len W.word ≤ length bytes.now }
        requires aligned { pos % byte_len W.word ≡ 0 }
        requires ordered { (range.lo ≤ range.hi) × (range.hi ≤ pos) }
        ensures { MatchResult result
            (Passes (table_spec W.word T.spec) bytes.now pos range)
            (Fails (table_spec W.word T.spec) bytes.now pos range) }
    {
        verify_by::<lanes::Group, W, T>(bytes, pos, range)
    }

    /// Returns the table at a view of its header, which is decoded here, once.
    #[inline]
    pub fn of(view: View<'a, TableOf<T, W>>) -> ArchivedHashTable<'a, T, W>
        requires { IsValidView (table_spec W.word T.spec) view }
        ensures view { table_view result ≡ view.entry }
    {
        ArchivedHashTable {
            view,
            header: decode::<T, W>(view),
        }
    }

    /// Returns the table at a view of its header, which was decoded before.
    #[inline]
    pub fn with_header(
        view: View<'a, TableOf<T, W>>,
        header: Decoded,
    ) -> ArchivedHashTable<'a, T, W>
        requires view { IsValidView (table_spec W.word T.spec) view }
        requires header { IsDecoded W.word (bytes_of view) (pos_of view) header }
        ensures view { table_view result ≡ view.entry }
        ensures header { table_header result ≡ header }
    {
        ArchivedHashTable { view, header }
    }

    /// Returns its decoded header.
    #[inline]
    pub fn header(self) -> Decoded
        ensures { IsDecoded W.word (table_bytes self.entry) (table_pos self.entry) result }
    {
        self.header
    }

    /// Returns `true` if it has no items.
    #[inline]
    pub fn is_empty(self) -> bool
        ensures { IsTrue result ↔ (len_at W.word (table_bytes self.entry) (table_pos self.entry)
            ≡ 0) }
    {
        self.header.len == 0
    }

    /// Returns the number of its items.
    #[inline]
    pub fn len(self) -> usize
        ensures { result ≡ len_at W.word (table_bytes self.entry) (table_pos self.entry) }
    {
        self.header.len
    }

    /// Returns the number of its buckets.
    #[inline]
    pub fn capacity(self) -> usize
        ensures { result ≡ cap_at W.word (table_bytes self.entry) (table_pos self.entry) }
    {
        self.header.cap
    }

    #[inline]
    pub(crate) fn start(self, hash: u64) -> usize
        ensures { 0 < self.entry.header.cap → result ≡ hash % self.entry.header.cap }
    {
        self.header.reciprocal.remainder(hash) as usize
    }
}

// Takes one division.
#[inline]
fn decode<T: Element, W: Width>(view: View<'_, TableOf<T, W>>) -> Decoded
    requires { IsValidView (table_spec W.word T.spec) view }
    ensures { IsDecoded W.word (bytes_of view.entry) (pos_of view.entry) result }
{
    let pos = view.pos();
    let header = read_header::<W>(view.bytes(), pos);
    let (len, cap) = (header.len as usize, header.cap as usize);
    let reciprocal = Reciprocal::new((cap as u64).max(1));
    let controls_pos = if cap == 0 {
        0
    } else {
        controls_pos(pos, header)
    };
    Decoded {
        controls_pos,
        len,
        cap,
        reciprocal,
    }
}
