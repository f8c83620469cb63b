// The header of a block: which family it is of, which rows, and how many these are.
#![tactic(auto)]

ghost use Rattle.std.specs.Prelude.{◌≡◌, ◌+◌, ◌<◌, ◌≤◌, List, [], ◌∷◌, length, MatchResult};
ghost use Rattle.replies.specs.Replies.{Grew};
ghost use Rattle.values.specs.Reading.{Took, Failed, Read};
ghost use Rattle.headers.specs.Headers.{family_named, span_in, spans_in, rows_in, exactly, count, count_octets, spans_octets};

use replies::Reply;
use tables::family::FamilyId;
use values::Fault;
use values::reader::Reader;

// The data type of a standard block.
pub const STANDARD: u8 = 0;

// An index, and how many rows there are from it on.
#[derive(Clone, Copy, Debug, PartialEq, Eq)]
pub struct Span {
    pub start: u8,
    pub quantity: u8,
}

// What a family with one index has for the second, so that its rows are counted like any others.
const NO_SECOND: Span = Span {
    start: 0,
    quantity: 1,
};

// The rows of a block, by the first index and by the second.
#[derive(Clone, Copy, Debug, PartialEq, Eq)]
pub struct Spans {
    pub first: Span,
    pub second: Span,
}

impl Spans {
    // How many rows these are.
    pub fn rows(self) -> usize
        ensures { result ≡ rows_in self }
    {
        usize::from(self.first.quantity) * usize::from(self.second.quantity)
    }
}

// The family that a block's first two octets name.
pub fn family_named(block: &[u8]) -> Result<FamilyId, Fault>
    ensures { MatchResult result (λ f. family_named.Means block.now 0 f 2) (λ w. family_named.Faults block.now 0 w) }
{
    let [data_type, rest @ ..] = block else {
        return Err(Fault::Missing);
    };
    if *data_type != STANDARD {
        return Err(Fault::NotInTable(0));
    }
    let [id, ..] = rest else {
        return Err(Fault::Missing);
    };
    FamilyId::try_from(*id).map_err(|_| Fault::NotInTable(1))
}

// An index from 1 to the last, and a quantity that does not run past the last.
pub fn read_span(last: u8, reader: &mut Reader) -> Result<Span, Fault>
    ensures { Read (span_in last) reader.old reader.new result }
{
    let from = reader.at;
    let [start, rest @ ..] = reader.rest() else {
        return Err(Fault::Missing);
    };
    let start = *start;
    // By comparisons: `contains` of a range was tried here, and the proof did not close.
    if start < 1 || last < start {
        return Err(Fault::NotInTable(from));
    }
    let [quantity, ..] = rest else {
        return Err(Fault::Missing);
    };
    let quantity = *quantity;
    if quantity < 1 || last - start < quantity - 1 {
        return Err(Fault::NotInTable(from + 1));
    }
    reader.at = from + 2;
    Ok(Span { start, quantity })
}

// The spans of a block; a family with one index has 0 for the last of the second, as its shape has.
pub fn read_spans(last_first: u8, last_second: u8, reader: &mut Reader) -> Result<Spans, Fault>
    ensures { Read (spans_in last_first last_second) reader.old reader.new result }
{
    let mut ahead = *reader;
    let first = read_span(last_first, &mut ahead)?;
    if last_second == 0 {
        *reader = ahead;
        return Ok(Spans {
            first,
            second: NO_SECOND,
        });
    }
    let second = read_span(last_second, &mut ahead)?;
    *reader = ahead;
    Ok(Spans { first, second })
}

// Just these octets, as a count's.
fn read_exactly(octets: &[u8], reader: &mut Reader) -> Result<(), Fault>
    ensures { MatchResult result (λ _. (marks : List (Unit {0})) × Took (exactly octets.now) reader.old reader.new marks) (λ w. Failed (exactly octets.now) reader.old reader.new w) }
{
    let mut ahead = *reader;
    for octet in octets {
        let [sent, ..] = ahead.rest() else {
            return Err(Fault::Missing);
        };
        if *sent != *octet {
            return Err(Fault::CountDiffers(ahead.at));
        }
        ahead.at += 1;
    }
    *reader = ahead;
    Ok(())
}

// The count of so many rows.
pub fn read_count(rows: usize, reader: &mut Reader) -> Result<(), Fault>
    requires { rows < 65536 }
    ensures { MatchResult result (λ _. (marks : List (Unit {0})) × Took (count rows) reader.old reader.new marks) (λ w. Failed (count rows) reader.old reader.new w) }
{
    if let Ok(few) = u8::try_from(rows) {
        read_exactly(&[1, few], reader)
    } else {
        let [high, low] = (rows as u16).to_be_bytes();
        read_exactly(&[2, high, low], reader)
    }
}

// Writes the count of so many rows.
pub fn put_count(rows: usize, reply: &mut Reply)
    requires rows { rows < 65536 }
    requires room { reply.old.position.now.length + 3 ≤ length reply.old.octets.now }
    ensures { Grew reply.old reply.new (count_octets rows) }
{
    if let Ok(few) = u8::try_from(rows) {
        reply.put(1);
        reply.put(few);
    } else {
        reply.put(2);
        reply.put_number(rows as u16);
    }
}

// Writes one span.
fn put_span(span: Span, reply: &mut Reply)
    requires { reply.old.position.now.length + 2 ≤ length reply.old.octets.now }
    ensures { Grew reply.old reply.new (span.start ∷ span.quantity ∷ []) }
{
    reply.put(span.start);
    reply.put(span.quantity);
}

// Writes the spans of a block.
pub fn put_spans(last_second: u8, spans: Spans, reply: &mut Reply)
    requires { reply.old.position.now.length + 4 ≤ length reply.old.octets.now }
    ensures { Grew reply.old reply.new (spans_octets last_second spans) }
{
    put_span(spans.first, reply);
    if last_second != 0 {
        put_span(spans.second, reply);
    }
}
