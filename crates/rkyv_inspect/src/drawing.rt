//! The drawing of an archive's regions, as SVG.

use crate::inspection::Inspection;
use crate::regions::{Region, RegionKind};
use std::fmt::{self, Display, Formatter, Write};

/// A drawing of the regions of an archive: a standalone SVG.
///
/// Each region is a rectangle as wide as its bytes, with its position and its text as the title.
///
/// # Examples
///
/// ```rust
/// // Returns the drawing of an archive.
/// fn draw(alloc: Global, archive: &[u8], contents: Contents) -> Result<String, InspectError> {
///     let inspection = inspect(alloc, archive, contents, 1_000_000)?;
///     Ok(format!(in alloc; "{}", Drawing::new(&inspection, archive.len()))?)
/// }
/// ```
#[derive(Clone, Copy)]
pub struct Drawing<'a> {
    inspection: &'a Inspection,
    len: usize,
}

impl<'a> Drawing<'a> {
    /// Returns the drawing of an inspection of an archive of `len` bytes.
    pub fn new(inspection: &'a Inspection, len: usize) -> Drawing<'a> {
        Drawing { inspection, len }
    }
}

impl Display for Drawing<'_> {
    fn fmt<W: Write>(&self, f: &mut Formatter<W>) -> fmt::Result {
        f.write_str("<svg xmlns=\"http://www.w3.org/2000/svg\" width=\"960\" height=\"120\">\n")?;
        write!(
            f,
            "<svg width=\"960\" height=\"80\" viewBox=\"0 0 {} 1\"",
            self.len
        )?;
        f.write_str(" preserveAspectRatio=\"none\">\n")?;
        for region in &self.inspection.regions {
            Rect(region).fmt(f)?;
        }
        f.write_str(
            "</svg>\n<text x=\"0\" y=\"110\" font-family=\"sans-serif\" font-size=\"16\">",
        )?;
        writeln!(
            f,
            "{} bytes: {}</text>",
            self.len, self.inspection.contents.kind
        )?;
        f.write_str("</svg>\n")
    }
}

#[derive(Clone, Copy)]
struct Rect<'a>(&'a Region);

impl Display for Rect<'_> {
    fn fmt<W: Write>(&self, f: &mut Formatter<W>) -> fmt::Result {
        let region = self.0;
        let width = region.end.saturating_sub(region.begin);
        write!(
            f,
            "<rect x=\"{}\" y=\"0\" width=\"{width}\" height=\"1\"",
            region.begin
        )?;
        write!(f, " fill=\"{}\">", fill_of(region.kind))?;
        writeln!(
            f,
            "<title>{}: {}</title></rect>",
            region.begin,
            Escaped(region.text.as_str())
        )
    }
}

/// A string with the characters of markup escaped.
#[derive(Clone, Copy)]
struct Escaped<'a>(&'a str);

impl Display for Escaped<'_> {
    fn fmt<W: Write>(&self, f: &mut Formatter<W>) -> fmt::Result {
        for c in self.0.chars() {
            match c {
                '<' => f.write_str("&lt;")?,
                '>' => f.write_str("&gt;")?,
                '&' => f.write_str("&amp;")?,
                '"' => f.write_str("&quot;")?,
                _ => f.write_char(c)?,
            }
        }
        Ok(())
    }
}

fn fill_of(kind: RegionKind) -> &'static str {
    match kind {
        RegionKind::Unknown => "#999999",
        RegionKind::Text => "#e6c229",
        RegionKind::FullBucket | RegionKind::Entry => "#2e8b57",
        RegionKind::EmptyBucket => "#d9ead3",
        RegionKind::Controls => "#1f77b4",
        RegionKind::MirroredControls => "#9ecae1",
        RegionKind::Padding => "#eeeeee",
        RegionKind::Header => "#a64d79",
    }
}
