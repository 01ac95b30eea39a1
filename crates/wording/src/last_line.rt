//! The last line of a text that comes in pieces.
ghost use Rattle.std.specs.Prelude.{◌≡◌, ◌≤◌, vec_len, vec_capacity};

use std::alloc::{AllocError, Global};

/// How many bytes of a line are kept.
const MOST: usize = 256;

/// A front of the last line of a text, and whether the line is at its end.
#[derive(Drop)]
pub struct LastLine {
    bytes: Vec<u8>,
    is_ended: bool,
    ghost few: { vec_len bytes ≤ 256 },
    ghost room: { 256 ≤ vec_capacity bytes },
}

impl LastLine {
    ghost use Rattle.std.specs.Prelude.{IfOk};
    ghost use Rattle.wording.specs.LastLine.{nothing, line_of, with_byte, with_bytes};

    /// That of no text. All the memory is taken here.
    pub fn new(alloc: Global) -> Result<LastLine, AllocError>
        ensures { IfOk result (λ line. line_of line ≡ nothing) }
    {
        Ok(LastLine {
            bytes: Vec::with_capacity(alloc, MOST)?,
            is_ended: false,
        })
    }

    /// The bytes that are kept, with the line's end if they reach to it.
    pub fn bytes(&self) -> &[u8]
        ensures { result.now ≡ (line_of self.now).bytes }
    {
        &self.bytes
    }

    /// The text goes on with a byte.
    fn add_byte(&mut self, byte: u8)
        ensures { line_of self.new ≡ with_byte (line_of self.old) byte }
    {
        if self.is_ended {
            self.bytes.clear();
        }
        if self.bytes.len() < MOST {
            self.bytes.push_reserved(byte);
        }
        self.is_ended = byte == b'\n';
    }

    /// The text goes on with these bytes.
    pub fn add(&mut self, bytes: &[u8])
        ensures { line_of self.new ≡ with_bytes (line_of self.old) bytes.now }
    {
        for byte in bytes {
            self.add_byte(*byte);
        }
    }
}
