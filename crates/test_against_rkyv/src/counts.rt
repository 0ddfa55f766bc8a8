//! Numbers of lines by group.
use std::alloc::{AllocError, Global};
use std::fmt::{self, Display, Formatter, Write};

/// A group, and the number of its lines.
#[derive(Clone, Copy)]
struct Count<G> {
    group: G,
    lines: usize,
}

/// The groups, in the order of their first lines.
#[derive(Drop)]
pub struct Counts<G> {
    counts: Vec<Count<G>>,
}

impl<G: Copy + PartialEq> Counts<G> {
    /// Returns the counts without lines.
    pub fn new(alloc: Global) -> Counts<G> {
        Counts {
            counts: Vec::new(alloc),
        }
    }

    /// Counts a line of this group.
    ///
    /// # Errors
    ///
    /// - `AllocError`: the group is a new one, and the list fails to allocate.
    pub fn add(&mut self, group: G) -> Result<(), AllocError> {
        for count in &mut self.counts {
            if count.group == group {
                count.lines = count.lines.saturating_add(1);
                return Ok(());
            }
        }
        self.counts.push(Count { group, lines: 1 })?;
        Ok(())
    }

    /// Returns the number of all lines.
    pub fn total(&self) -> usize {
        let lines = self.counts.iter().map(|count| count.lines);
        lines.fold(0, |total: usize, lines| total.saturating_add(lines))
    }
}

impl<G: Display> Display for Counts<G> {
    fn fmt<W: Write>(&self, f: &mut Formatter<W>) -> fmt::Result {
        for count in &self.counts {
            writeln!(f, "{} {}", count.group, count.lines)?;
        }
        Ok(())
    }
}
