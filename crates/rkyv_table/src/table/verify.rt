//! Validating an untrusted table.
//!
//! 1. The length is below the capacity, or both are 0.
//! 2. The buckets and the control bytes are in the range, and aligned.
//! 3. The items in the full buckets are valid.
//! 4. The length is the number of full buckets.
//! 5. The control bytes after the buckets' own mirror them, or are empty.
ghost use Rattle.std.specs.Prelude.{IfErr, IfOk, MatchResult, length, ◌%◌, ◌*◌, ◌+◌, ◌<◌, ◌≡◌, ◌≤◌};
ghost use Rattle.std.specs.Int.{byte_len};
ghost use Rattle.rkyv_base.specs.{Fails, Passes};
ghost use Rattle.rkyv_table.specs.{AreValid, ChecksValue, FailsInside, FirstFails, IsPart};
ghost use Rattle.rkyv_table.specs.{bucket_at, control_count, part_size, table_spec, walk};

use crate::controls::numbers::control_count;
use crate::controls::wrapped::check_wrapped;
use crate::table::header::{bucket_position, decode_begin, part_size, read_header};
use rkyv_base::{Element, PartRange, VerifyError, Width, part_in};
use rkyv_scan::{GroupKind, Marks};

#[inline]
fn check_item<T: Element>(
    bytes: &[u8],
    begin: u64,
    cap: usize,
    bucket: usize,
    lo: u64,
) -> Result<u64, VerifyError>
    requires bucket { bucket < cap }
    requires inside { begin + cap * T.spec.size ≤ length bytes.now }
    requires aligned { begin % T.spec.align ≡ 0 }
    requires ordered { lo ≤ begin }
    ensures { ChecksValue T.spec bytes.now (bucket_at T.spec.size begin cap bucket) lo begin
        result }
{
    let at = bucket_position(begin, cap, bucket, T::size());
    let rest = T::check(bytes, at, PartRange { lo, hi: begin })?;
    Ok(rest.lo)
}

fn check_items<G: GroupKind, T: Element>(
    bytes: &[u8],
    controls: &[u8],
    begin: u64,
    cap: usize,
    lo: u64,
) -> Result<usize, VerifyError>
    requires some { 0 < cap }
    requires count { length controls.now ≡ control_count cap }
    requires inside { begin + cap * T.spec.size ≤ length bytes.now }
    requires aligned { begin % T.spec.align ≡ 0 }
    requires ordered { lo ≤ begin }
    ensures valid { IfOk result (λ _.
        AreValid T.spec (bucket_at T.spec.size begin cap) bytes.now begin (walk controls.now cap)
        lo) }
    ensures count { IfOk result (λ n. n ≡ length (walk controls.now cap)) }
    ensures fails { IfErr result (FirstFails T.spec (bucket_at T.spec.size begin cap) bytes.now
        begin (walk controls.now cap) lo) }
{
    let mut low = lo;
    let mut count = 0;
    let mut base = 0;
    while G::WIDTH <= cap - base {
        let mut marks = G::read(controls, base).match_full();
        while let Some(j) = marks.lowest_set_bit() {
            low = check_item::<T>(bytes, begin, cap, base + j, low)?;
            count += 1;
            marks = marks.remove_lowest_bit();
        }
        base += G::WIDTH;
    }
    for bucket in base..cap {
        if controls[bucket] < 128 {
            low = check_item::<T>(bytes, begin, cap, bucket, low)?;
            count += 1;
        }
    }
    Ok(count)
}

fn check_part<G: GroupKind, T: Element>(
    bytes: &[u8],
    begin: u64,
    cap: usize,
    len: usize,
    lo: u64,
) -> Result<u64, VerifyError>
    requires room { len < cap }
    requires inside { begin + part_size T.spec.size cap ≤ length bytes.now }
    requires aligned { begin % T.spec.align ≡ 0 }
    requires ordered { lo ≤ begin }
    ensures is { IfOk result (λ _. IsPart T.spec bytes.now cap len lo begin) }
    ensures ends { IfOk result (λ end. end ≡ begin + part_size T.spec.size cap) }
    ensures fails { IfErr result (FailsInside T.spec bytes.now cap len lo begin) }
{
    let at = begin as usize + cap * T::size();
    let end = at + control_count(cap);
    let controls = &bytes[at..end];
    let actual = check_items::<G, T>(bytes, controls, begin, cap, lo)?;
    if actual != len {
        return Err(VerifyError::WrongNumberOfElements {
            expected: len,
            actual,
        });
    }
    match check_wrapped(controls, cap) {
        Ok(()) => Ok(end as u64),
        Err(index) => Err(VerifyError::UnwrappedControlByte { index }),
    }
}

pub(crate) fn verify_by<G: GroupKind, W: Width, T: Element>(
    bytes: &[u8],
    pos: u64,
    range: PartRange,
) -> Result<PartRange, VerifyError>
    requires inside { pos + 3 * byte_len W.word ≤ length bytes.now }
    requires ordered { (range.lo ≤ range.hi) × (range.hi ≤ pos) }
    ensures { MatchResult result
        (Passes (table_spec W.word T.spec) bytes.now pos range)
        (Fails (table_spec W.word T.spec) bytes.now pos range) }
{
    let header = read_header::<W>(bytes, pos);
    if header.len == 0 && header.cap == 0 {
        return Ok(range);
    }
    let (len, cap) = (header.len as usize, header.cap as usize);
    if len >= cap {
        return Err(VerifyError::InvalidLength { len, cap });
    }
    let size = T::size();
    let decoded_begin = decode_begin(pos, header, size);
    let align = T::align() as u64;
    let begin = part_in(decoded_begin, part_size(header.cap, size), align, range)?;
    let end = check_part::<G, T>(bytes, begin, cap, len, range.lo)?;
    Ok(PartRange {
        lo: end,
        hi: range.hi,
    })
}
