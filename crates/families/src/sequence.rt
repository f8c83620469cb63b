ghost use Rattle.std.proofs.Common.{refl, lit≤};
ghost use Rattle.tables.specs.declared.family.FamilyId.TheVariants.{Sequence};
ghost use Rattle.families.specs.Families.{sequence_layout};
ghost use Rattle.families.specs.FamilyFacts.{layout_lawful, layout_small};

use blocks::cells::{load_list, stage_list};
use blocks::family::Family;
use lists::list::BoundedList;
use memory::ParameterMemory;
use replies::Reply;
use tables::family::FamilyId;
use tables::place::Indices;
use tables::work::StagedWrite;
use values::Fault;
use values::phases::{PhaseList, put_list};
use values::reader::Reader;

// The ring's phases in order.
#[derive(Clone, Copy, Debug, PartialEq, Eq)]
pub struct SequenceRow {
    pub list: PhaseList,
}

// The list's column, counted from 1.
const LIST: u8 = 1;

pub struct Sequences;

impl Family for Sequences {
    type Index = Indices;

    type Row = SequenceRow;

    const FAMILY: FamilyId = FamilyId::Sequence;

    const ID: u8 = 7;

    const LAST: Indices = Indices {
        first: 4,
        second: 4,
    };

    ghost FAMILY = { Sequence };

    ghost ID = { 7 };

    ghost LAST = { record { first = 4; second = 4 } };

    ghost layout = { sequence_layout };

    ghost constants = { record { id = refl; last_first = refl; last_second = refl; indexed = lit≤ tt } };

    ghost lawful = { layout_lawful Sequence };

    ghost small = { layout_small Sequence };

    fn parse(reader: &mut Reader) -> Result<SequenceRow, Fault> {
        let list = reader.list(FamilyId::Sequence.column(LIST).unwrap())?;
        Ok(SequenceRow { list })
    }

    fn stage(base: usize, row: &SequenceRow, list: &mut BoundedList<StagedWrite>) {
        stage_list(base, LIST, &row.list, list)
    }

    fn load<M: ParameterMemory>(memory: &mut M, base: usize) -> SequenceRow {
        SequenceRow {
            list: load_list(memory, base, LIST),
        }
    }

    fn emit(row: &SequenceRow, reply: &mut Reply) {
        put_list(FamilyId::Sequence.column(LIST).unwrap(), &row.list, reply)
    }
}
