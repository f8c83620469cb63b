ghost use Rattle.std.specs.Prelude.{◌≡◌, ◌+◌, ◌≤◌, length, MatchResult};
ghost use Rattle.replies.specs.Replies.{Grew};
ghost use Rattle.values.specs.Reading.{Took, Failed, Read, EachOf, each_octets};
ghost use Rattle.values.specs.Numbers.{number, numbers, Fits, octets, size, sizes};

use super::Fault;
use super::reader::Reader;
use replies::Reply;
use tables::columns::Column;

impl Reader<'_> {
    // A number as its column has it. On a fault the reader stays where it was, here and in all that reads.
    pub fn number(&mut self, column: Column) -> Result<u16, Fault>
        ensures { Read (number column) self.old self.new result }
    {
        let (sent, size) = if column.width == 2 {
            let [high, low, ..] = self.rest() else {
                return Err(Fault::Missing);
            };
            (u16::from_be_bytes([*high, *low]), 2)
        } else {
            let [octet, ..] = self.rest() else {
                return Err(Fault::Missing);
            };
            (u16::from(*octet), 1)
        };
        let value = column.stored(sent).ok_or(Fault::NotAllowed(self.at))?;
        self.at += size;
        Ok(value)
    }

    // A number for each column, one after the other, into fixed memory: how many is known at run time alone.
    pub fn numbers_into(&mut self, columns: &[Column], out: &mut [u16]) -> Result<(), Fault>
        requires { length out.old ≡ length columns.now }
        ensures { MatchResult result (λ _. Took (numbers columns.now) self.old self.new out.new) (λ w. Failed (numbers columns.now) self.old self.new w) }
    {
        let mut reader = *self;
        // by index: a zip over `iter_mut` was tried, and the proof did not close
        for (i, column) in columns.iter().enumerate() {
            out[i] = reader.number(*column)?;
        }
        *self = reader;
        Ok(())
    }

    // The same for a known number of columns.
    pub fn numbers<const N: usize>(&mut self, columns: &[Column; N]) -> Result<[u16; N], Fault>
        ensures { Read (numbers columns.now) self.old self.new result }
    {
        let mut out = [0u16; N];
        self.numbers_into(columns, &mut out)?;
        Ok(out)
    }
}

// Writes a number as its column has it.
pub fn put_value(column: Column, value: u16, reply: &mut Reply)
    requires room { reply.old.position.now.length + size column ≤ length reply.old.octets.now }
    requires fits { Fits column value }
    ensures { Grew reply.old reply.new (octets column value) }
{
    if column.width == 2 {
        reply.put_number(value)
    } else {
        reply.put(value as u8)
    }
}

// Writes a number for each column, one after the other.
pub fn put_values(columns: &[Column], values: &[u16], reply: &mut Reply)
    requires room { reply.old.position.now.length + sizes columns.now ≤ length reply.old.octets.now }
    requires fits { EachOf Fits columns.now values.now }
    ensures { Grew reply.old reply.new (each_octets octets columns.now values.now) }
{
    for (column, value) in columns.iter().zip(values) {
        put_value(*column, *value, reply);
    }
}
