//! A line that is put together.

use qc_types::NoMemory;
use std::alloc::Global;

/// The bytes of a line.
#[derive(Drop)]
pub struct Line {
    pub alloc: Global,
    bytes: Vec<u8>,
}

impl Line {
    pub fn new(alloc: Global) -> Line {
        Line {
            alloc,
            bytes: Vec::new(alloc),
        }
    }

    pub fn bytes(&self) -> &[u8] {
        self.bytes.as_slice()
    }

    /// Puts a text at the end.
    pub fn put(&mut self, text: &str) -> Result<(), NoMemory> {
        self.put_bytes(text.as_bytes())
    }

    pub fn put_bytes(&mut self, bytes: &[u8]) -> Result<(), NoMemory> {
        self.bytes.extend_from_slice(bytes)?;
        Ok(())
    }

    /// Puts a text, and a number behind it.
    pub fn put_number(&mut self, text: &str, number: u64) -> Result<(), NoMemory> {
        self.put(text)?;
        self.put(number.to_string(self.alloc)?.as_str())
    }
}
