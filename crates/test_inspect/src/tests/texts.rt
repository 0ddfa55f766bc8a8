//! The printed text of inspections.

use crate::tests::archives::{EMPTY, NAMES, NUMBERED_TEXTS, ONE_HASH, ONE_NUMBER};
use crate::tests::support::{narrow, numbers, wide};
use rkyv_container::{Contents, Header, ItemType, Kind};
use rkyv_inspect::{ContainerLine, Printed, inspect};
use std::alloc::Global;
use std::test::Fail;

/// Returns the printed text of an archive, without colour.
fn text_of(alloc: Global, archive: &[u8], contents: Contents, limit: u64) -> Result<String, Fail> {
    let inspection = inspect(alloc, archive, contents, limit)?;
    Ok(format!(in alloc; "{}", Printed::new(archive, &inspection, false))?)
}

const ONE_NUMBER_TEXT: &str = "\
items: 1
buckets: 2
load: 50%
control bytes at: 16
header at: 48
1 strides: 1 keys
misplaced keys: 0
bytes: 60
       0  01 00 00 00 02 00 00 00     bucket 1: key 1, value 2
       8  00 00 00 00 00 00 00 00     bucket 0: empty
      16  ff 28                       control bytes
      18  ff 28 ff ff ff ff ff ff ..  mirrored control bytes
      47  00                          padding
      48  e0 ff ff ff                 header: distance -32 to the control bytes
      52  01 00 00 00                 header: length 1
      56  02 00 00 00                 header: capacity 2
";

const EMPTY_TEXT: &str = "\
items: 0
buckets: 0
load: 0%
control bytes at: none
header at: 0
misplaced keys: 0
";

#[test]
fn one_number(rt: HostRuntime) -> Result<(), Fail> {
    let text = text_of(rt.alloc(), &ONE_NUMBER, numbers(), 1000)?;
    expect_eq!(rt; text.as_str(), ONE_NUMBER_TEXT);
    Ok(())
}

#[test]
fn texts_of_fields(rt: HostRuntime) -> Result<(), Fail> {
    let mut shifted = [0; 68];
    shifted[8..].copy_from_slice(&ONE_NUMBER);
    let mut escaped = NAMES;
    escaped[..2].copy_from_slice(b"\n\"");
    let names = narrow(Kind::HashMap, ItemType::Text, ItemType::U64);
    let numbered = narrow(Kind::IndexMap, ItemType::U32, ItemType::Text);
    let rows: [(&[u8], Contents, &str); 10] = [
        (&EMPTY, numbers(), EMPTY_TEXT),
        (
            &shifted,
            numbers(),
            "  00 00 00 00 00 00 00 00     unknown bytes\n",
        ),
        (
            &NAMES,
            names,
            "       0  \"wonderful day\"             out-of-line text\n",
        ),
        (
            &NAMES,
            names,
            "  bucket 1: key \"wonderful day\", value 2\n",
        ),
        (&NAMES, names, "  bucket 0: key \"main\", value 1\n"),
        (
            &escaped,
            names,
            "       0  \"\\n\\\"nderful day\"             out-of-line text\n",
        ),
        (&NUMBERED_TEXTS, numbered, "  bucket 2: index 1\n"),
        (
            &NUMBERED_TEXTS,
            numbered,
            "      43  \"the number eight\"          out-of-line text\n",
        ),
        (
            &NUMBERED_TEXTS,
            numbered,
            "  entry 1: key 8, value \"the number eight\"\n",
        ),
        (
            &NUMBERED_TEXTS,
            numbered,
            "  header: distance -36 to the entries\n",
        ),
    ];
    for (archive, contents, line) in &rows {
        let text = text_of(rt.alloc(), archive, *contents, 1000)?;
        assert!(rt; text.as_str().contains(*line));
    }
    Ok(())
}

#[test]
fn lookups_past_the_limit(rt: HostRuntime) -> Result<(), Fail> {
    let contents = wide(Kind::HashSet, ItemType::Text, ItemType::Unit);
    let text = text_of(rt.alloc(), &ONE_HASH, contents, 1000)?;
    assert!(rt;
        text.as_str().contains("1 strides: 16 keys\n2 strides: 4 keys\nmisplaced keys: 0\n")
    );
    let text = text_of(rt.alloc(), &ONE_HASH, contents, 23)?;
    let line = "misplaced keys: not counted, since their lookups read too many strides\n";
    assert!(rt; text.as_str().contains(line));
    assert!(rt; !text.as_str().contains(" strides: "));
    Ok(())
}

#[test]
fn fields_are_colored(rt: HostRuntime) -> Result<(), Fail> {
    let inspection = inspect(rt.alloc(), &ONE_NUMBER, numbers(), 1000)?;
    let text = format!(in rt.alloc(); "{}", Printed::new(&ONE_NUMBER, &inspection, true))?;
    let line = "      52  \x1b[35m01 00 00 00               \x1b[0m  header: length 1\n";
    assert!(rt; text.as_str().contains(line));
    Ok(())
}

#[test]
fn a_container_line_is_printed(rt: HostRuntime) -> Result<(), Fail> {
    let texts = wide(Kind::IndexSet, ItemType::Text, ItemType::Unit);
    let floats = narrow(Kind::IndexMap, ItemType::Text, ItemType::F64);
    let rows: [(Contents, u64, Option<u32>, &str); 3] = [
        (
            numbers(),
            60,
            Some(0x6278_2117),
            "container: hash map of u32 to u32, narrow, archive of 60 bytes, checksum 62782117\n",
        ),
        (
            texts,
            32,
            None,
            "container: index set of text, wide, archive of 32 bytes, no checksum\n",
        ),
        (
            floats,
            44,
            None,
            "container: index map of text to f64, narrow, archive of 44 bytes, no checksum\n",
        ),
    ];
    for (contents, len, checksum, line) in &rows {
        let header = Header {
            contents: *contents,
            len: *len,
            checksum: *checksum,
        };
        let text = format!(in rt.alloc(); "{}", ContainerLine(header))?;
        expect_eq!(rt; text.as_str(), *line);
    }
    Ok(())
}
