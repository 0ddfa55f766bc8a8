//! Archives of a dictionary: validation, lookup, listing, audit and writing.
//!
//! Each call takes the form of the archive, and calls a function that is generic in kind
//! and width.

ghost use Rattle.std.specs.Prelude.{ℕ, ◌≡◌, ◌++◌, IfSome, MatchResult, codes, decimal};
ghost use Rattle.std.specs.List.{flat_map};
ghost use Rattle.std.specs.Option.{option_map};
ghost use Rattle.rkyv_base.specs.{IsAt, IsValidView};
ghost use Rattle.rkyv_keys.specs.{at_view};
ghost use Rattle.rkyv_collections.specs.{key_positions, map_bytes, map_view};
ghost use Rattle.rkyv_dict.specs.{AppendsText, Builds, FindsFirstValue, IsArchive, IsMapArchive};
ghost use Rattle.rkyv_dict.specs.{MakesArchive, MapValidationFails, Pairs, RootRepresents};
ghost use Rattle.rkyv_dict.specs.{ValidationFails, entry_count, first_value_text, form_of_pairs};
ghost use Rattle.rkyv_dict.specs.{keys_misplaced, line, line_at, listing, lookup_key};
ghost use Rattle.rkyv_dict.specs.{map_types, misplaced_count, natives, pair_count, pair_lines};
ghost use Rattle.rkyv_dict.specs.{pairs_of, root, value_found, value_line, value_under};

use crate::form::{ArchiveWidth, Form, Key, Kind};
use crate::pairs::PairList;
use crate::parts::Printable;
use rkyv_base::{
    Narrow, NoMemory, Serialize, Text, VecWriter, VerifyError, View, Wide, Width, WriteError,
    access_in, access_unchecked, to_bytes_in,
};
use rkyv_collections::{ArchivedHashMap, FxHasher64, HashMapOf, MapPairs, NativeKey, Query};
use std::alloc::{AllocError, Global};

pub(crate) fn push_line(out: &mut String, text: &str) -> Result<(), AllocError>
    ensures { AppendsText result out.old out.new (line text.now) }
{
    writeln!(out, "{text}")
}

fn check_map<P: Printable, W: Width>(bytes: &[u8]) -> Result<usize, VerifyError>
    ensures { let m = map_types W.Width P.Printable in MatchResult result
        (λ n. IsMapArchive m bytes.now × (n ≡ pair_count m bytes.now))
        (MapValidationFails m bytes.now) }
{
    let root = access_in::<W, HashMapOf<P, P, FxHasher64, W>>(bytes)?;
    Ok(ArchivedHashMap::of(root).len())
}

fn map_of<'a, P: Printable, W: Width>(bytes: &'a [u8]) -> ArchivedHashMap<'a, P, P, FxHasher64, W>
    requires { IsMapArchive (map_types W.Width P.Printable) bytes.now }
    ensures at { IsAt (map_view result) bytes.entry
        (root (map_types W.Width P.Printable) bytes.now) }
{
    ArchivedHashMap::of(access_unchecked(bytes))
}

fn push_text<P: Printable>(value: Option<View<'_, P>>, out: &mut String) -> Result<(), AllocError>
    requires { IfSome value (IsValidView P.spec) }
    ensures { AppendsText result out.old out.new (value_line (option_map
        (at_view P.text) value.entry)) }
{
    match value {
        Some(value) => {
            P::push(value, out)?;
            push_line(out, "")
        }
        None => push_line(out, "none"),
    }
}

fn push_found<P: Printable, W: Width, Q: Query<P>>(
    bytes: &[u8],
    key: &Q,
    out: &mut String,
) -> Result<(), AllocError>
    requires { IsMapArchive (map_types W.Width P.Printable) bytes.now }
    ensures found { let m = map_types W.Width P.Printable in
        AppendsText result out.old out.new
        (value_line (value_under m bytes.now (Q.calls key.now) (Q.fits key.now bytes.now))) }
    ensures first { let m = map_types W.Width P.Printable in
        FindsFirstValue m bytes.now (Q.fits key.now bytes.now) (λ value.
        AppendsText result out.old out.new (value_line value)) }
{
    push_text(map_of::<P, W>(bytes).get(key), out)
}

fn push_pair<P: Printable>(
    key: View<'_, P>,
    value: View<'_, P>,
    out: &mut String,
) -> Result<(), AllocError>
    requires key { IsValidView P.spec key }
    requires value { IsValidView P.spec value }
    ensures { AppendsText result out.old out.new
        (line (at_view P.text key.entry ++ codes " " ++ at_view P.text value.entry)) }
{
    P::push(key, out)?;
    write!(out, " ")?;
    P::push(value, out)?;
    push_line(out, "")
}

fn push_count(count: usize, out: &mut String) -> Result<(), AllocError>
    ensures { AppendsText result out.old out.new (line (codes "entries " ++ decimal count)) }
{
    writeln!(out, "entries {count}")
}

fn push_lines<P: Printable, W: Width>(
    map: ArchivedHashMap<'_, P, P, FxHasher64, W>,
    out: &mut String,
) -> Result<(), AllocError>
    ensures { let lines = flat_map (line_at P.spec P.text (map_bytes map.entry)) in
        AppendsText result out.old out.new (lines (key_positions map.entry)) }
{
    for (key, value) in map.iter() {
        push_pair(key, value, out)?;
    }
    Ok(())
}

fn push_map<P: Printable, W: Width>(bytes: &[u8], out: &mut String) -> Result<(), AllocError>
    requires { IsMapArchive (map_types W.Width P.Printable) bytes.now }
    ensures { AppendsText result out.old out.new
        (pair_lines (map_types W.Width P.Printable) bytes.now) }
{
    let map = map_of::<P, W>(bytes);
    push_count(map.len(), out)?;
    push_lines(map, out)
}

fn count_misplaced<P: Printable, W: Width>(bytes: &[u8]) -> usize
    requires { IsMapArchive (map_types W.Width P.Printable) bytes.now }
    ensures { result ≡ keys_misplaced (map_types W.Width P.Printable) bytes.now }
{
    map_of::<P, W>(bytes).misplaced()
}

fn build_map<A: NativeKey<A::Archived> + Serialize<VecWriter, W>, W: Width>(
    alloc: Global,
    pairs: &[(A, A)],
    load_factor: (usize, usize),
) -> Result<Vec<u8>, WriteError<NoMemory>>
where
    A::Archived: Printable,
    ensures { MakesArchive (map_types W.Width A.Archived.Printable) load_factor W.MAX_CAPACITY
        (natives A.format A.calls A.Archived.represents) pairs.now result }
{
    let list = MapPairs::<'_, A, A>::with_load_factor(pairs, load_factor);
    to_bytes_in::<W, MapPairs<'_, A, A>>(alloc, &list)
}

/// Validates an archive of the form, and returns the number of its pairs.
///
/// # Errors
///
/// - `OutOfRange`: the archive is shorter than a root or longer than the limit of its width.
/// - `Unaligned`: the root isn't aligned.
/// - The first error of the map at the root.
pub fn check(form: Form, bytes: &[u8]) -> Result<usize, VerifyError>
    ensures { MatchResult result
        (λ n. IsArchive form bytes.now × (n ≡ entry_count form bytes.now))
        (ValidationFails form bytes.now) }
{
    match (form.kind, form.bits) {
        (Kind::Num, ArchiveWidth::Bits32) => check_map::<u32, Narrow>(bytes),
        (Kind::Num, ArchiveWidth::Bits64) => check_map::<u32, Wide>(bytes),
        (Kind::Text, ArchiveWidth::Bits32) => check_map::<Text<Narrow>, Narrow>(bytes),
        (Kind::Text, ArchiveWidth::Bits64) => check_map::<Text<Wide>, Wide>(bytes),
    }
}

/// Appends the line of the value that a lookup of the key finds, or the line `none`.
///
/// A key of the other kind is never found. After `AllocError`, the bytes of `out` are unspecified.
pub fn push_value(
    form: Form,
    bytes: &[u8],
    key: Key<'_>,
    out: &mut String,
) -> Result<(), AllocError>
    requires { IsArchive form bytes.now }
    ensures found { AppendsText result out.old out.new
        (value_line (value_found form bytes.now (lookup_key key.entry))) }
    ensures first { (pairs : Pairs) (factor : ℕ × ℕ) → RootRepresents form factor bytes.now pairs
        → AppendsText result out.old out.new
        (value_line (first_value_text pairs (lookup_key key.entry))) }
{
    match (form.kind, key) {
        (Kind::Num, Key::Number(number)) => match form.bits {
            ArchiveWidth::Bits32 => push_found::<u32, Narrow, u32>(bytes, &number, out),
            ArchiveWidth::Bits64 => push_found::<u32, Wide, u32>(bytes, &number, out),
        },
        (Kind::Text, Key::Text(text)) => match form.bits {
            ArchiveWidth::Bits32 => push_found::<Text<Narrow>, Narrow, &str>(bytes, &text, out),
            ArchiveWidth::Bits64 => push_found::<Text<Wide>, Wide, &str>(bytes, &text, out),
        },
        _ => push_line(out, "none"),
    }
}

/// Appends the line of the number of pairs, then the line of each pair in bucket order.
///
/// A pair's line is its key, a space and its value. After `AllocError`, `out` is unspecified.
pub fn push_pairs(form: Form, bytes: &[u8], out: &mut String) -> Result<(), AllocError>
    requires { IsArchive form bytes.now }
    ensures { AppendsText result out.old out.new (listing form bytes.now) }
{
    match (form.kind, form.bits) {
        (Kind::Num, ArchiveWidth::Bits32) => push_map::<u32, Narrow>(bytes, out),
        (Kind::Num, ArchiveWidth::Bits64) => push_map::<u32, Wide>(bytes, out),
        (Kind::Text, ArchiveWidth::Bits32) => push_map::<Text<Narrow>, Narrow>(bytes, out),
        (Kind::Text, ArchiveWidth::Bits64) => push_map::<Text<Wide>, Wide>(bytes, out),
    }
}

/// Counts the keys that their own lookup doesn't find.
pub fn misplaced(form: Form, bytes: &[u8]) -> usize
    requires { IsArchive form bytes.now }
    ensures { result ≡ misplaced_count form bytes.now }
{
    match (form.kind, form.bits) {
        (Kind::Num, ArchiveWidth::Bits32) => count_misplaced::<u32, Narrow>(bytes),
        (Kind::Num, ArchiveWidth::Bits64) => count_misplaced::<u32, Wide>(bytes),
        (Kind::Text, ArchiveWidth::Bits32) => count_misplaced::<Text<Narrow>, Narrow>(bytes),
        (Kind::Text, ArchiveWidth::Bits64) => count_misplaced::<Text<Wide>, Wide>(bytes),
    }
}

/// Writes the archive of the pairs, in insertion order, as a map under the load factor.
///
/// # Errors
///
/// - `Memory`: the scratch space of the root fails to allocate.
/// - The errors of a map's `serialize_from_iter`, in its order.
/// - `TextTooLong`: a string is too long for the width.
/// - `PositionTooLarge`: the archive would be longer than the limit of the width.
/// - `Writer`: the vector of the archive fails to allocate.
/// - `DistanceTooLarge`: a distance doesn't fit the width.
///
/// The last four are checked for each part, as it is written.
pub fn build(
    alloc: Global,
    bits: ArchiveWidth,
    list: &PairList<'_>,
    load_factor: (usize, usize),
) -> Result<Vec<u8>, WriteError<NoMemory>>
    ensures { let pairs = pairs_of list.now in
        Builds (form_of_pairs bits pairs) load_factor pairs result }
{
    match (list, bits) {
        (PairList::Numbers(pairs), ArchiveWidth::Bits32) => {
            build_map::<u32, Narrow>(alloc, pairs.as_slice(), load_factor)
        }
        (PairList::Numbers(pairs), ArchiveWidth::Bits64) => {
            build_map::<u32, Wide>(alloc, pairs.as_slice(), load_factor)
        }
        (PairList::Texts(pairs), ArchiveWidth::Bits32) => {
            build_map::<&str, Narrow>(alloc, pairs.as_slice(), load_factor)
        }
        (PairList::Texts(pairs), ArchiveWidth::Bits64) => {
            build_map::<&str, Wide>(alloc, pairs.as_slice(), load_factor)
        }
    }
}
