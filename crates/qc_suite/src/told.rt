//! What differs, in lines.

use crate::line::Line;
use qc_types::NoMemory;
use std::alloc::Global;

/// So many bytes of a text are told at most, and so many of them before the first that differs.
const MOST_TOLD: usize = 300;

const TOLD_BEFORE: usize = 100;

/// What differs in a case.
#[derive(Drop)]
pub struct Told {
    pub alloc: Global,
    lines: Line,
}

impl Told {
    pub fn new(alloc: Global) -> Told {
        Told {
            alloc,
            lines: Line::new(alloc),
        }
    }

    pub fn is_empty(&self) -> bool {
        self.lines.bytes().is_empty()
    }

    pub fn bytes(&self) -> &[u8] {
        self.lines.bytes()
    }

    /// Tells a line.
    pub fn tell(&mut self, line: &[u8]) -> Result<(), NoMemory> {
        self.lines.put("  ")?;
        self.lines.put_bytes(line)?;
        self.lines.put("\n")
    }

    /// Tells a line that ends with a number.
    pub fn tell_number(&mut self, line: &str, number: u64) -> Result<(), NoMemory> {
        let mut told = Line::new(self.alloc);
        told.put_number(line, number)?;
        self.tell(told.bytes())
    }

    /// Tells what another one has, where it has something, below a line.
    pub fn tell_all(&mut self, line: &Line, others: &Told) -> Result<(), NoMemory> {
        if others.is_empty() {
            return Ok(());
        }
        self.tell(line.bytes())?;
        self.lines.put_bytes(others.bytes())
    }

    /// Tells where two texts differ.
    pub fn compare(&mut self, what: &[u8], found: &[u8], wanted: &[u8]) -> Result<(), NoMemory> {
        if found == wanted {
            return Ok(());
        }
        let same = found
            .iter()
            .zip(wanted)
            .take_while(|(byte, other)| byte == other)
            .count();
        let front = found.get(..same).unwrap_or(found);
        let line = match front.iter().rposition(|byte| *byte == b'\n') {
            Some(place) => place.wrapping_add(1),
            None => 0,
        };
        let from = line.max(same.saturating_sub(TOLD_BEFORE));
        self.tell(what)?;
        self.tell_from("  is  ", found, from)?;
        self.tell_from("  not ", wanted, from)
    }

    /// The same of a text whose last line needn't end and lines.
    pub fn compare_lines(&mut self, text: &str, wanted: &[u8]) -> Result<(), NoMemory> {
        let mut lines = Line::new(self.alloc);
        lines.put(text)?;
        if !text.is_empty() && !text.ends_with('\n') {
            lines.put("\n")?;
        }
        self.compare(b"told", lines.bytes(), wanted)
    }

    /// Tells a part of a text.
    fn tell_from(&mut self, front: &str, text: &[u8], from: usize) -> Result<(), NoMemory> {
        let behind = text.get(from..).unwrap_or(b"");
        let mut told = Line::new(self.alloc);
        told.put(front)?;
        told.put_bytes(behind.get(..MOST_TOLD).unwrap_or(behind))?;
        self.tell(told.bytes())
    }
}
