//! The drawings of archives.

use crate::tests::archives::{NAMES, ONE_HASH, ONE_NUMBER};
use crate::tests::support::{narrow, numbers, wide};
use rkyv_container::{Contents, ItemType, Kind};
use rkyv_inspect::{Drawing, inspect};
use std::alloc::Global;
use std::test::Fail;

const ONE_NUMBER_DRAWING: &str = "\
<svg xmlns=\"http://www.w3.org/2000/svg\" width=\"960\" height=\"120\">
<svg width=\"960\" height=\"80\" viewBox=\"0 0 60 1\" preserveAspectRatio=\"none\">
<rect x=\"0\" y=\"0\" width=\"8\" height=\"1\" fill=\"#2e8b57\">\
<title>0: bucket 1: key 1, value 2</title></rect>
<rect x=\"8\" y=\"0\" width=\"8\" height=\"1\" fill=\"#d9ead3\">\
<title>8: bucket 0: empty</title></rect>
<rect x=\"16\" y=\"0\" width=\"2\" height=\"1\" fill=\"#1f77b4\">\
<title>16: control bytes</title></rect>
<rect x=\"18\" y=\"0\" width=\"29\" height=\"1\" fill=\"#9ecae1\">\
<title>18: mirrored control bytes</title></rect>
<rect x=\"47\" y=\"0\" width=\"1\" height=\"1\" fill=\"#eeeeee\">\
<title>47: padding</title></rect>
<rect x=\"48\" y=\"0\" width=\"4\" height=\"1\" fill=\"#a64d79\">\
<title>48: header: distance -32 to the control bytes</title></rect>
<rect x=\"52\" y=\"0\" width=\"4\" height=\"1\" fill=\"#a64d79\">\
<title>52: header: length 1</title></rect>
<rect x=\"56\" y=\"0\" width=\"4\" height=\"1\" fill=\"#a64d79\">\
<title>56: header: capacity 2</title></rect>
</svg>
<text x=\"0\" y=\"110\" font-family=\"sans-serif\" font-size=\"16\">60 bytes: hash map</text>
</svg>
";

/// Returns the drawing of an archive, and the number of its regions.
fn drawing_of(alloc: Global, archive: &[u8], contents: Contents) -> Result<(String, usize), Fail> {
    let inspection = inspect(alloc, archive, contents, 1000)?;
    let text = format!(in alloc; "{}", Drawing::new(&inspection, archive.len()))?;
    Ok((text, inspection.regions.len()))
}

/// Returns how often a tag is in a text.
fn count(text: &str, tag: &str) -> usize {
    text.matches(tag).count()
}

#[test]
fn one_number(rt: HostRuntime) -> Result<(), Fail> {
    let (text, _) = drawing_of(rt.alloc(), &ONE_NUMBER, numbers())?;
    expect_eq!(rt; text.as_str(), ONE_NUMBER_DRAWING);
    Ok(())
}

#[test]
fn one_rectangle_for_each_region(rt: HostRuntime) -> Result<(), Fail> {
    let contents = wide(Kind::HashSet, ItemType::Text, ItemType::Unit);
    let (text, regions) = drawing_of(rt.alloc(), &ONE_HASH, contents)?;
    let text = text.as_str();
    expect_eq!(rt; regions, 28);
    expect_eq!(rt; count(text, "<rect "), 28);
    expect_eq!(rt; count(text, "</title></rect>\n"), 28);
    expect_eq!(rt; count(text, "<title>"), 28);
    expect_eq!(rt; (count(text, "<svg "), count(text, "</svg>\n")), (2, 2));
    Ok(())
}

#[test]
fn quotes_are_escaped(rt: HostRuntime) -> Result<(), Fail> {
    let contents = narrow(Kind::HashMap, ItemType::Text, ItemType::U64);
    let (text, _) = drawing_of(rt.alloc(), &NAMES, contents)?;
    assert!(rt;
        text.as_str()
            .contains("bucket 0: key &quot;main&quot;, value 1")
    );
    Ok(())
}
