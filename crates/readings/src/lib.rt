// What a unit's reply says: that the request was accepted, with its numbers or its block if it has any, or why it was
// refused.
#![tactic(auto)]

ghost use Rattle.std.specs.Prelude.{◌≡◌, ◌%◌, length, IfOk};
ghost use Rattle.transfers.specs.Gets.{two_octets};
ghost use Rattle.readings.specs.Replies.{Says};

use std::alloc::{AllocError, Global};

pub mod cause;

// A refusal as it stands in a reply, by numbers: any octets may stand there.
#[derive(Clone, Copy, Debug, PartialEq, Eq)]
pub struct Fault {
    pub number: u8,
    pub layer: u8,
    pub place: u16,
}

// Not a `Result<Option<Vec<u16>>, Option<Fault>>`, which is no plainer: a refusal is as good a reading as an acceptance.
#[derive(Debug, PartialEq, Eq, Drop)]
pub enum Reading {
    // accepted, with nothing to tell
    Done,
    Numbers(Vec<u16>),
    // the block of a family, by its data ID; its rows are not taken apart
    Block(u8),
    Refused(Fault),
    // no reply that a unit gives
    Unclear,
}

// The numbers that stand in the octets.
fn numbers_of(heap: Global, octets: &[u8]) -> Result<Vec<u16>, AllocError>
    requires { length octets.now % 2 ≡ 0 }
    ensures { IfOk result (λ v. two_octets v.items ≡ octets.now) }
{
    let (pairs, _) = octets.as_chunks::<2>();
    pairs
        .iter()
        .map(|pair| u16::from_be_bytes(*pair))
        .collect(heap)
}

// Takes a reply apart.
pub fn read(heap: Global, reply: &[u8]) -> Result<Reading, AllocError>
    ensures { IfOk result (λ reading. Says reply.now reading) }
{
    match reply {
        [0] => Ok(Reading::Done),
        [0, count, values @ ..] if values.len() == 2 * usize::from(*count) => {
            Ok(Reading::Numbers(numbers_of(heap, values)?))
        },
        [0, 0, id, ..] => Ok(Reading::Block(*id)),
        [number @ 1.., layer, high, low] => Ok(Reading::Refused(Fault {
            number: *number,
            layer: *layer,
            place: u16::from_be_bytes([*high, *low]),
        })),
        _ => Ok(Reading::Unclear),
    }
}

#[cfg(test)]
mod tests;
