// Rows one after the other, of any family. That the spans are the family's and the memory has the table's cells is asked by
// clause: a value of a bound has no invariant, and a struct over a family for each call would be no plainer. How much room a
// reply needs differs from function to function.
ghost use Rattle.std.specs.Prelude.{◌≡◌, ◌+◌, ◌*◌, ◌<◌, ◌≤◌, [], length, MatchResult};
ghost use Rattle.lists.specs.Items.{items, room};
ghost use Rattle.memory.specs.Top.{cell_count};
ghost use Rattle.memory.specs.Cells.{Bounded};
ghost use Rattle.memory.specs.Uses.{OnlyRead};
ghost use Rattle.tables.specs.Families.{shape_of};
ghost use Rattle.tables.specs.Places.{cell_of};
ghost use Rattle.replies.specs.Replies.{Grew};
ghost use Rattle.values.specs.Reading.{Failed, Read, whole};
ghost use Rattle.headers.specs.Headers.{InTable, rows_in, row_place, spans_of};
ghost use Rattle.blocks.specs.Rows.{rows, rows_octets, rows_shown, StagedBy};
ghost use Rattle.blocks.specs.Blocks.{BlockMeans, contents, block_octets};

use super::family::Family;
use super::index::RowIndex;
use headers::{STANDARD, Spans, put_count, put_spans, read_count, read_spans};
use lists::list::BoundedList;
use memory::ParameterMemory;
use replies::Reply;
use tables::work::StagedWrite;
use values::Fault;
use values::reader::Reader;

// The first cell of a row of a block, counted from 0: the first index is innermost.
fn first_cell<F: Family>(spans: Spans, row: usize) -> usize
    requires table { InTable F.FAMILY spans }
    requires row { row < rows_in spans }
    ensures cell { result ≡ cell_of (row_place F.FAMILY spans row) }
    ensures within { result + (shape_of F.FAMILY).row_cells ≤ cell_count }
{
    let firsts = spans.first.quantity as usize;
    let first = spans.first.start + (row % firsts) as u8;
    let second = spans.second.start + (row / firsts) as u8;
    F::place(F::Index::at(first, second)).cell().unwrap()
}

// Reads rows one after the other, and stages their writes.
pub fn read_rows<F: Family>(
    spans: Spans,
    reader: &mut Reader,
    list: &mut BoundedList<StagedWrite>,
) -> Result<(), Fault>
    requires table { InTable F.FAMILY spans }
    requires room { length (items list.old) + rows_in spans * length F.layout.carried ≤ room list.old }
    ensures { MatchResult result (λ _. StagedBy F.FAMILY F.layout spans (rows_in spans) reader.old reader.new (items list.old) (items list.new)) (λ w. Failed (rows F.layout.reading (rows_in spans)) reader.old reader.new w) }
{
    let mut ahead = *reader;
    // Over row numbers, which say where a row stands.
    for row in 0..spans.rows() {
        let read = F::parse(&mut ahead)?;
        F::stage(first_cell::<F>(spans, row), &read, list);
    }
    *reader = ahead;
    Ok(())
}

// Writes the rows that a memory has, one after the other.
pub fn write_rows<F: Family, M: ParameterMemory>(memory: &mut M, spans: Spans, reply: &mut Reply)
    requires sound { M.sound memory.old }
    requires count { length (M.cells memory.old) ≡ cell_count }
    requires bounded { Bounded (M.cells memory.old) }
    requires table { InTable F.FAMILY spans }
    requires room { reply.old.position.now.length + rows_in spans * F.layout.most ≤ length reply.old.octets.now }
    ensures read { OnlyRead M.ParameterMemory memory.old memory.new }
    ensures written { Grew reply.old reply.new (rows_octets F.layout.octets (rows_in spans) (rows_shown (M.cells memory.old) F.FAMILY F.layout spans (rows_in spans))) }
    ensures size { reply.new.position.now.length ≤ reply.old.position.now.length + rows_in spans * F.layout.most }
{
    // Over row numbers, which say where a row stands.
    for row in 0..spans.rows() {
        let shown = F::load(memory, first_cell::<F>(spans, row));
        F::emit(&shown, reply);
    }
}

// The spans of a block of the family.
fn read_spans_of<F: Family>(reader: &mut Reader) -> Result<Spans, Fault>
    ensures { Read (spans_of F.FAMILY) reader.old reader.new result }
{
    read_spans(F::LAST.first(), F::LAST.second(), reader)
}

// Reads a block of the family, behind its data type and ID, and stages the writes of its rows.
pub fn read_block<F: Family>(block: &[u8], list: &mut BoundedList<StagedWrite>) -> Result<(), Fault>
    requires front { 2 ≤ length block.now }
    requires room { length (items list.old) + 1024 ≤ room list.old }
    requires empty { items list.old ≡ [] }
    ensures { MatchResult result (λ _. BlockMeans F.FAMILY F.layout block.now (items list.new)) (λ w. (contents F.FAMILY F.layout).Faults block.now 2 w) }
{
    let mut reader = Reader {
        octets: block,
        at: 2,
    };
    let spans = read_spans_of::<F>(&mut reader)?;
    read_count(spans.rows(), &mut reader)?;
    read_rows::<F>(spans, &mut reader, list)?;
    if reader.at < block.len() {
        return Err(Fault::Over(reader.at));
    }
    Ok(())
}

// Reads a header without count, behind its data type and ID, and nothing after it.
pub fn read_header<F: Family>(header: &[u8]) -> Result<Spans, Fault>
    requires { 2 ≤ length header.now }
    ensures { MatchResult result (λ sp. (whole (spans_of F.FAMILY)).Means header.now 2 sp (length header.now)) (λ w. (whole (spans_of F.FAMILY)).Faults header.now 2 w) }
{
    let mut reader = Reader {
        octets: header,
        at: 2,
    };
    let spans = read_spans_of::<F>(&mut reader)?;
    if reader.at < header.len() {
        return Err(Fault::Over(reader.at));
    }
    Ok(spans)
}

// Writes the block of the rows that a memory has.
pub fn write_block<F: Family, M: ParameterMemory>(memory: &mut M, spans: Spans, reply: &mut Reply)
    requires sound { M.sound memory.old }
    requires count { length (M.cells memory.old) ≡ cell_count }
    requires bounded { Bounded (M.cells memory.old) }
    requires table { InTable F.FAMILY spans }
    requires room { reply.old.position.now.length + 1023 ≤ length reply.old.octets.now }
    ensures read { OnlyRead M.ParameterMemory memory.old memory.new }
    ensures written { Grew reply.old reply.new (block_octets F.FAMILY F.layout spans (rows_shown (M.cells memory.old) F.FAMILY F.layout spans (rows_in spans))) }
    ensures size { reply.new.position.now.length ≤ reply.old.position.now.length + 1023 }
{
    reply.put(STANDARD);
    reply.put(F::ID);
    put_spans(F::LAST.second(), spans, reply);
    put_count(spans.rows(), reply);
    write_rows::<F, M>(memory, spans, reply);
}
