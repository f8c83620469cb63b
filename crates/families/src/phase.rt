ghost use Rattle.std.proofs.Common.{refl, lit≤};
ghost use Rattle.tables.specs.declared.family.FamilyId.TheVariants.{Phase};
ghost use Rattle.families.specs.Families.{phase_layout};
ghost use Rattle.families.specs.FamilyFacts.{layout_lawful, layout_small};

use super::columns_of;
use blocks::cells::{load_list, load_row, stage_list, stage_numbers};
use blocks::family::Family;
use lists::list::BoundedList;
use memory::ParameterMemory;
use replies::Reply;
use tables::family::FamilyId;
use tables::work::StagedWrite;
use values::Fault;
use values::numbers::put_values;
use values::phases::{PhaseList, put_list};
use values::reader::Reader;

// Walk, pedestrian clear, minimum green, passage, maximum 1, maximum 2, yellow change, red clear, red revert, added
// initial, maximum initial, time before reduction, cars before reduction, time to reduce, reduce by, minimum gap,
// dynamic maximum limit, dynamic maximum step, startup, options and ring; then the list of concurrent phases.
#[derive(Clone, Copy, Debug, PartialEq, Eq)]
pub struct PhaseRow {
    pub numbers: [u16; 21],
    pub list: PhaseList,
}

// The columns of the numbers and of the list, counted from 1.
const NUMBERS: [u8; 21] = [
    1, 2, 3, 4, 5, 6, 7, 8, 9, 10, 11, 12, 13, 14, 15, 16, 17, 18, 19, 20, 21,
];

const LIST: u8 = 22;

pub struct Phases;

impl Family for Phases {
    type Index = u8;

    type Row = PhaseRow;

    const FAMILY: FamilyId = FamilyId::Phase;

    const ID: u8 = 0;

    const LAST: u8 = 16;

    ghost FAMILY = { Phase };

    ghost ID = { 0 };

    ghost LAST = { 16 };

    ghost layout = { phase_layout };

    ghost constants = { record { id = refl; last_first = refl; last_second = refl; indexed = lit≤ tt } };

    ghost lawful = { layout_lawful Phase };

    ghost small = { layout_small Phase };

    fn parse(reader: &mut Reader) -> Result<PhaseRow, Fault> {
        let mut ahead = *reader;
        let numbers = ahead.numbers(&columns_of(FamilyId::Phase, &NUMBERS))?;
        let list = ahead.list(FamilyId::Phase.column(LIST).unwrap())?;
        *reader = ahead;
        Ok(PhaseRow { numbers, list })
    }

    fn stage(base: usize, row: &PhaseRow, list: &mut BoundedList<StagedWrite>) {
        stage_numbers(base, &NUMBERS, &row.numbers, list);
        stage_list(base, LIST, &row.list, list)
    }

    fn load<M: ParameterMemory>(memory: &mut M, base: usize) -> PhaseRow {
        let numbers = load_row(memory, base, &NUMBERS);
        let list = load_list(memory, base, LIST);
        PhaseRow { numbers, list }
    }

    fn emit(row: &PhaseRow, reply: &mut Reply) {
        put_values(&columns_of(FamilyId::Phase, &NUMBERS), &row.numbers, reply);
        put_list(FamilyId::Phase.column(LIST).unwrap(), &row.list, reply)
    }
}
