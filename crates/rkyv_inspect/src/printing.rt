//! The text of an inspection: its summary, and a line for each region.

use crate::inspection::Inspection;
use crate::regions::{Region, RegionKind, bytes_in};
use crate::summary::{Lookups, Summary};
use rkyv_container::{Header, ItemType};
use std::fmt::{self, Display, Formatter, Write};

/// The number of bytes of a region that are shown in hexadecimal.
const SHOWN: usize = 8;

/// The number of columns of these bytes, and of the two dots.
const COLUMNS: usize = 26;

/// The header of a container, as a line of text.
#[derive(Clone, Copy)]
pub struct ContainerLine(pub Header);

impl Display for ContainerLine {
    fn fmt<W: Write>(&self, f: &mut Formatter<W>) -> fmt::Result {
        let contents = self.0.contents;
        write!(f, "container: {} of {}", contents.kind, contents.key)?;
        if contents.value != ItemType::Unit {
            write!(f, " to {}", contents.value)?;
        }
        write!(f, ", {}, archive of {} bytes", contents.width, self.0.len)?;
        match self.0.checksum {
            Some(checksum) => writeln!(f, ", checksum {checksum:08x}"),
            None => f.write_str(", no checksum\n"),
        }
    }
}

/// The lines of a summary, without its lookups.
#[derive(Clone, Copy)]
struct Numbers<'a>(&'a Summary);

impl Display for Numbers<'_> {
    fn fmt<W: Write>(&self, f: &mut Formatter<W>) -> fmt::Result {
        let summary = self.0;
        writeln!(f, "items: {}", summary.len)?;
        writeln!(f, "buckets: {}", summary.capacity)?;
        writeln!(f, "load: {}%", percent(summary.len, summary.capacity))?;
        match summary.controls_pos {
            Some(pos) => writeln!(f, "control bytes at: {pos}")?,
            None => f.write_str("control bytes at: none\n")?,
        }
        writeln!(f, "header at: {}", summary.header_pos)?;
        match &summary.lookups {
            Some(lookups) => LookupLines(lookups).fmt(f),
            None => f.write_str(
                "misplaced keys: not counted, since their lookups read too many strides\n",
            ),
        }
    }
}

/// Returns `part` in hundredths of `whole`, or 0 if `whole` is 0.
fn percent(part: usize, whole: usize) -> u128 {
    if whole == 0 {
        return 0;
    }
    part as u128 * 100 / whole as u128
}

#[derive(Clone, Copy)]
struct LookupLines<'a>(&'a Lookups);

impl Display for LookupLines<'_> {
    fn fmt<W: Write>(&self, f: &mut Formatter<W>) -> fmt::Result {
        for (strides, keys) in self.0.strides.iter().enumerate() {
            if *keys > 0 {
                writeln!(f, "{strides} strides: {keys} keys")?;
            }
        }
        writeln!(f, "misplaced keys: {}", self.0.misplaced)
    }
}

/// Up to eight bytes in hexadecimal, and two dots if there are more.
#[derive(Clone, Copy)]
struct Hex<'a>(&'a [u8]);

impl Display for Hex<'_> {
    fn fmt<W: Write>(&self, f: &mut Formatter<W>) -> fmt::Result {
        for byte in self.0.iter().take(SHOWN) {
            write!(f, "{byte:02x} ")?;
        }
        for _ in self.0.len()..SHOWN {
            f.write_str("   ")?;
        }
        if self.0.len() > SHOWN {
            f.write_str("..")
        } else {
            f.write_str("  ")
        }
    }
}

/// A string in quotes, escaped as by `Debug`, in at least as many columns as the bytes.
#[derive(Clone, Copy)]
struct Quoted<'a>(&'a str);

impl Display for Quoted<'_> {
    fn fmt<W: Write>(&self, f: &mut Formatter<W>) -> fmt::Result {
        write!(f, "{:?}", self.0)?;
        for _ in self.0.chars().count().saturating_add(2)..COLUMNS {
            f.write_str(" ")?;
        }
        Ok(())
    }
}

/// The bytes of a region: an out-of-line text as a string, others in hexadecimal.
#[derive(Clone, Copy)]
struct Shown<'a> {
    bytes: &'a [u8],
    kind: RegionKind,
}

impl Display for Shown<'_> {
    fn fmt<W: Write>(&self, f: &mut Formatter<W>) -> fmt::Result {
        match (self.kind, str::from_utf8(self.bytes)) {
            (RegionKind::Text, Ok(text)) => Quoted(text).fmt(f),
            _ => Hex(self.bytes).fmt(f),
        }
    }
}

#[derive(Clone, Copy)]
struct Line<'a> {
    archive: &'a [u8],
    region: &'a Region,
    color: bool,
}

impl Display for Line<'_> {
    fn fmt<W: Write>(&self, f: &mut Formatter<W>) -> fmt::Result {
        let region = self.region;
        let shown = Shown {
            bytes: bytes_in(self.archive, region.begin, region.end),
            kind: region.kind,
        };
        if self.color {
            let code = color_of(region.kind);
            writeln!(
                f,
                "{:>8}  \x1b[{code}m{shown}\x1b[0m  {}",
                region.begin, region.text
            )
        } else {
            writeln!(f, "{:>8}  {shown}  {}", region.begin, region.text)
        }
    }
}

/// Returns the code of a terminal's colour for the bytes of a region.
fn color_of(kind: RegionKind) -> u8 {
    match kind {
        RegionKind::Unknown | RegionKind::Padding => 90,
        RegionKind::Text => 33,
        RegionKind::FullBucket | RegionKind::Entry => 32,
        RegionKind::EmptyBucket => 37,
        RegionKind::Controls => 36,
        RegionKind::MirroredControls => 34,
        RegionKind::Header => 35,
    }
}

/// The text of an inspection, in the colours of a terminal or not.
///
/// # Examples
///
/// ```rust
/// // Returns the text of an inspection, without colour.
/// fn text_of(alloc: Global, archive: &[u8], contents: Contents) -> Result<String, InspectError> {
///     let inspection = inspect(alloc, archive, contents, 1_000_000)?;
///     Ok(format!(in alloc; "{}", Printed::new(archive, &inspection, false))?)
/// }
/// ```
#[derive(Clone, Copy)]
pub struct Printed<'a> {
    archive: &'a [u8],
    inspection: &'a Inspection,
    color: bool,
}

impl<'a> Printed<'a> {
    /// Returns the text of the inspection of `archive`.
    pub fn new(archive: &'a [u8], inspection: &'a Inspection, color: bool) -> Printed<'a> {
        Printed {
            archive,
            inspection,
            color,
        }
    }
}

impl Display for Printed<'_> {
    fn fmt<W: Write>(&self, f: &mut Formatter<W>) -> fmt::Result {
        Numbers(&self.inspection.summary).fmt(f)?;
        writeln!(f, "bytes: {}", self.archive.len())?;
        for region in &self.inspection.regions {
            let line = Line {
                archive: self.archive,
                region,
                color: self.color,
            };
            line.fmt(f)?;
        }
        Ok(())
    }
}
