ghost use Rattle.std.specs.Prelude.{◌≡◌, ◌+◌, ◌≤◌, length};
ghost use Rattle.replies.specs.Replies.{Grew};
ghost use Rattle.values.specs.Reading.{Read};
ghost use Rattle.values.specs.Lists.{phases, ListFits, list_octets};
ghost use Rattle.values.specs.Numbers.{size};

use super::Fault;
use super::numbers::{put_value, put_values};
use super::reader::Reader;
use replies::Reply;
use tables::columns::{Column, Kind};

// A length is at most 16.
pub const LENGTH: Column = Column {
    width: 1,
    least: 0,
    greatest: 16,
    kind: Kind::Number,
};

// Up to sixteen octets; the places past them hold 0. No vector of fixed room, which is no plainer: all seventeen cells are
// staged, with the zeros. Its length is widened by `as`: `usize::from` was tried, and the proofs did not close.
#[derive(Clone, Copy, Debug, PartialEq, Eq)]
pub struct PhaseList {
    pub len: u16,
    pub phases: [u16; 16],
}

impl Reader<'_> {
    // A list of the column: its length, and then as many octets.
    pub fn list(&mut self, column: Column) -> Result<PhaseList, Fault>
        ensures { Read (phases column) self.old self.new result }
    {
        let mut reader = *self;
        let len = reader.number(LENGTH)?;
        let mut phases = [0u16; 16];
        reader.numbers_into(&[column; 16][..len as usize], &mut phases[..len as usize])?;
        *self = reader;
        Ok(PhaseList { len, phases })
    }
}

// Writes a list: its length, and then as many octets.
pub fn put_list(column: Column, list: &PhaseList, reply: &mut Reply)
    requires room { reply.old.position.now.length + 17 ≤ length reply.old.octets.now }
    requires narrow { size column ≡ 1 }
    requires fits { ListFits column list.now }
    ensures { Grew reply.old reply.new (list_octets column list.now) }
{
    let len = list.len as usize;
    put_value(LENGTH, list.len, reply);
    put_values(&[column; 16][..len], &list.phases[..len], reply);
}
