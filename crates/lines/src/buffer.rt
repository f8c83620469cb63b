ghost use Rattle.std.specs.Prelude.{◌≡◌, ℕ, ◌≤◌, List, [], ◌∷◌, ◌++◌, length, take, IfSome, MatchOption, ◌==◌};
ghost use Rattle.arrayvec.specs.ArrayVec.{array_vec_len};
ghost use Rattle.lines.specs.Spelling.{spelled, longest_line, line_room, Legible, Holds};

use crate::{LONGEST_LINE, octets_of_line};
use arrayvec::ArrayVec;
use std::marker::Model;

// One byte more than the longest good line has.
const LINE_ROOM: usize = 3 * LONGEST_LINE;

// A line as it comes in, byte by byte. Of a line that is too long it keeps the front, which is
// too long as well. An array and a length, since an `ArrayVec` blanks what it held when it is cleared.
#[derive(Drop)]
pub struct LineBuffer {
    bytes: [u8; LINE_ROOM],
    len: usize,
    ghost within: { len ≤ 3072 },
}

impl Model for LineBuffer {
    ghost use Rattle.std.specs.Prelude.{ℕ, List, take};

    ghost Value = { List ℕ };

    ghost view = { λ b. take b.len b.bytes };
}

impl LineBuffer {
    pub fn new() -> LineBuffer
        ensures { Holds result [] }
    {
        LineBuffer {
            bytes: [0; LINE_ROOM],
            len: 0,
        }
    }

    pub fn clear(&mut self)
        ensures { Holds self.new [] }
    {
        self.len = 0;
    }

    pub fn push(&mut self, byte: u8)
        ensures { (line : List ℕ) → Holds self.old line → Holds self.new (line ++ byte ∷ []) }
    {
        if self.len < LINE_ROOM {
            self.bytes[self.len] = byte;
            self.len += 1;
        }
    }

    pub fn is_empty(&self) -> bool
        ensures { (line : List ℕ) → Holds self.now line → result ≡ ((length line) == 0) }
    {
        self.len == 0
    }

    // The line's bytes, but of a line that is too long only the front.
    pub fn text(&self) -> &[u8]
        ensures { (line : List ℕ) → Holds self.now line → result.now ≡ take line_room line }
    {
        &self.bytes[0..self.len]
    }

    // What `octets_of_line` says of the whole line.
    pub fn octets(&self) -> Option<ArrayVec<u8, LONGEST_LINE>>
        ensures cases { (line : List ℕ) → Holds self.now line → MatchOption result (Legible line → ⊥) (λ octets. line ≡ spelled octets.items) }
        ensures bound { IfSome result (λ octets. array_vec_len octets ≤ longest_line) }
    {
        octets_of_line(self.text())
    }
}
