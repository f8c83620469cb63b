ghost use Rattle.std.specs.Prelude.{◌≡◌, ℕ, ◌+◌, ◌≤◌, ◌++◌, length};
ghost use Rattle.lists.specs.Items.{items, room};
ghost use Rattle.memory.specs.Uses.{OnlyRead};
ghost use Rattle.tables.specs.declared.family.FamilyId.{FamilyId};
ghost use Rattle.tables.specs.Families.{shape_of};
ghost use Rattle.replies.specs.Replies.{Grew};
ghost use Rattle.values.specs.Reading.{Read};
ghost use Rattle.headers.specs.Headers.{row_at};
ghost use Rattle.blocks.specs.Layouts.{Constants, Layout, Lawful, Small, placed, cells_at};

use super::index::RowIndex;
use lists::list::BoundedList;
use memory::ParameterMemory;
use replies::Reply;
use tables::family::FamilyId;
use tables::place::Place;
use tables::work::StagedWrite;
use values::Fault;
use values::reader::Reader;

// A family of rows: its own kind of index and of row, its data ID and last row, and what its rows are in a block and in
// a table. Blocks are read and written by it alone, so that a family more needs no new proof of them.
pub trait Family {
    type Index: RowIndex;

    type Row: Copy;

    const FAMILY: FamilyId;

    const ID: u8;

    const LAST: Self::Index;

    ghost FAMILY: { FamilyId };

    ghost ID: { ℕ };

    ghost LAST: { Self.Index };

    ghost layout: { Layout Self.Row };

    // The row that octets mean.
    fn parse(reader: &mut Reader) -> Result<Self::Row, Fault>
        ensures { Read layout.reading reader.old reader.new result };

    // Stages the writes of a row that begins at the cell `base`.
    fn stage(base: usize, row: &Self::Row, list: &mut BoundedList<StagedWrite>)
        requires base { base ≤ 60000 }
        requires room { length (items list.old) + length layout.carried ≤ room list.old }
        ensures pushed { items list.new ≡ items list.old ++ placed base layout.carried (layout.values row.now) }
        ensures room { room list.new ≡ room list.old };

    // The row that a memory has from the cell `base` on.
    fn load<M: ParameterMemory>(memory: &mut M, base: usize) -> Self::Row
        requires sound { M.sound memory.old }
        requires base { base ≤ 60000 }
        requires within { base + (shape_of FAMILY).row_cells ≤ length (M.cells memory.old) }
        ensures read { OnlyRead M.ParameterMemory memory.old memory.new }
        ensures loaded { result ≡ layout.row_of (cells_at (M.cells memory.old) base layout.carried) };

    // Writes the octets of a row.
    fn emit(row: &Self::Row, reply: &mut Reply)
        requires fits { layout.fits row.now }
        requires room { reply.old.position.now.length + layout.most ≤ length reply.old.octets.now }
        ensures { Grew reply.old reply.new (layout.octets row.now) };

    // Where the row with an index stands.
    final fn place(index: Self::Index) -> Place
        ensures { result ≡ row_at FAMILY (Self.Index.first_of index) (Self.Index.second_of index) }
    {
        Place {
            family: Self::FAMILY,
            first: index.first(),
            second: index.second(),
            column: 1,
            octet: 0,
        }
    }

    ghost constants: { Constants FAMILY ID (Self.Index.first_of LAST) (Self.Index.second_of LAST) Self.Index.seconds };

    ghost lawful: { Lawful FAMILY layout };

    ghost small: { Small FAMILY layout };
}
