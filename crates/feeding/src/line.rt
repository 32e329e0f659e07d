// The bytes of a line that has not ended.
ghost use Rattle.std.specs.Prelude.{◌≡◌, ℕ, ◌↔◌, List, [], take, IsTrue};
ghost use Rattle.frame_text.specs.Feeding.{kept};
ghost use Rattle.feeding.specs.Held.{LineHeld};

use frame_text::FRAME_LENGTH;
use std::marker::Model;

// What is kept of a line: a frame's digits and one byte more, since a longer line is bad however it goes on.
pub const LINE_ROOM: usize = FRAME_LENGTH + 1;

// The unfinished line is the first `have` bytes, with zeros behind it: no byte of an earlier line stays there.
// Kept: an array with its length beside, since memory is fixed (no heap).
#[derive(Drop)]
pub struct Line {
    pub bytes: [u8; LINE_ROOM],
    pub have: usize,
}

// Clauses see the bytes of the unfinished line.
impl Model for Line {
    ghost Value = { List ℕ };

    ghost view = { λ l. take l.have l.bytes };

    ghost invariant = { λ l. LineHeld l.bytes l.have (take l.have l.bytes) };
}

impl Line {
    // No byte of a line.
    pub fn new() -> Line
        ensures { result ≡ [] }
    {
        Line {
            bytes: [0; LINE_ROOM],
            have: 0,
        }
    }

    // The bytes that are kept of the line.
    pub fn bytes(&self) -> &[u8]
        ensures { result.now ≡ self.now }
    {
        &self.bytes[..self.have]
    }

    // Whether no line is begun.
    pub(crate) fn is_empty(&self) -> bool
        ensures { IsTrue result ↔ (self.now ≡ []) }
    {
        self.have == 0
    }

    // Keeps a byte, if the line is no longer than a frame.
    pub(crate) fn keep(&mut self, byte: u8)
        ensures { self.new ≡ kept self.old byte }
    {
        if self.have < LINE_ROOM {
            self.bytes[self.have] = byte;
            self.have += 1;
        }
    }

    // Clears the bytes of a line that ended, so that none of them stays behind the next line's.
    pub(crate) fn clear(&mut self)
        ensures { self.new ≡ [] }
    {
        let ended = self.have;
        self.bytes[..ended].fill(0);
        self.have = 0;
    }
}
