ghost use Rattle.std.specs.Prelude.{◌≡◌};
ghost use Rattle.transfers.specs.Refusals.{number_of};

use transfers::refusal::Refusal;

// What a call returns to C: its refusal number, or 0, the reply's length in octets, and the mode after it.
#[repr(C)]
#[derive(Clone, Copy, Debug, PartialEq, Eq)]
pub struct Answer {
    pub number: u8,
    pub mode: u8,
    pub length: usize,
}

impl Answer {
    // A refusal that has no reply.
    pub fn unreplied(refusal: Refusal, mode: u8) -> Answer
        ensures { result ≡ record { number = number_of refusal; mode = mode; length = 0 } }
    {
        Answer {
            number: refusal.number(),
            mode,
            length: 0,
        }
    }
}

// The mode in which no edit is open, as C knows it.
pub const QUIET: u8 = 0;
