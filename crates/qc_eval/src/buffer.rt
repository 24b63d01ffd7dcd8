//! Bytes in memory that is taken once.

ghost use Rattle.std.specs.Prelude.{◌≡◌, ◌+◌, ◌≤◌, [], ◌++◌, length, take, IfOk};

use qc_types::NoMemory;
use std::alloc::Global;
use std::marker::Model;

/// Bytes, in memory that holds so many. Contracts see both.
#[derive(Drop)]
pub struct TextBuffer {
    bytes: Vec<u8>,
}

impl Model for TextBuffer {
    ghost use Rattle.std.specs.Prelude.{vec_capacity};
    ghost use Rattle.qc_eval.specs.Buffered.{Buffered};

    ghost Value = { Buffered };

    ghost view = { λ b. record { bytes = b.bytes.items; capacity = vec_capacity b.bytes } };
}

impl TextBuffer {
    /// No bytes, with room for so many.
    pub fn new(alloc: Global, capacity: usize) -> Result<TextBuffer, NoMemory>
        ensures empty { IfOk result (λ b. b.bytes ≡ []) }
        ensures room { IfOk result (λ b. capacity ≤ b.capacity) }
    {
        Ok(TextBuffer {
            bytes: Vec::with_capacity(alloc, capacity)?,
        })
    }

    /// Puts bytes at the end, for which there is room.
    pub fn put(&mut self, piece: &[u8])
        requires { length self.old.bytes + length piece.now ≤ self.old.capacity }
        ensures bytes { self.new.bytes ≡ self.old.bytes ++ piece.now }
        ensures capacity { self.old.capacity ≤ self.new.capacity }
    {
        let _ = self.bytes.extend_from_slice(piece);
    }

    /// Takes away all bytes but the first so many.
    pub fn truncate(&mut self, length: usize)
        ensures bytes { self.new.bytes ≡ take length self.old.bytes }
        ensures capacity { self.new.capacity ≡ self.old.capacity }
    {
        self.bytes.truncate(length);
    }

    pub fn len(&self) -> usize
        ensures { result ≡ length self.now.bytes }
    {
        self.bytes.len()
    }

    pub fn bytes(&self) -> &[u8]
        ensures { result.now ≡ self.now.bytes }
    {
        self.bytes.as_slice()
    }
}
