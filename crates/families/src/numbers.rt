ghost use Rattle.std.specs.Prelude.{ℕ, List, refl};
ghost use Rattle.tables.specs.declared.family.FamilyId.{FamilyId};
ghost use Rattle.blocks.specs.Layouts.{Constants, Small, numbers_layout};
ghost use Rattle.blocks.proofs.LayoutFacts.{numbers_lawful, row_lawful};
ghost use Rattle.families.specs.Families.{Columns, numbers_row};

use super::columns_of;
use blocks::cells::{load_row, stage_numbers};
use blocks::family::Family;
use blocks::index::RowIndex;
use lists::list::BoundedList;
use memory::ParameterMemory;
use replies::Reply;
use std::marker::PhantomData;
use tables::family::FamilyId;
use tables::work::StagedWrite;
use values::Fault;
use values::numbers::put_values;
use values::reader::Reader;

// A row of numbers, in the order of their columns.
#[derive(Clone, Copy, Debug, PartialEq, Eq)]
pub struct NumberRow<const N: usize> {
    pub numbers: [u16; N],
}

// What tells families of numbers apart, and all that their five files have: the kind of index, the family, and the columns that a block carries, counted
// from 1.
pub trait NumberColumns<const N: usize> {
    type Index: RowIndex;

    const FAMILY: FamilyId;

    const ID: u8;

    const LAST: Self::Index;

    const NUMBERS: [u8; N];

    ghost FAMILY: { FamilyId };

    ghost ID: { ℕ };

    ghost LAST: { Self.Index };

    ghost NUMBERS: { List ℕ };

    ghost constants: { Constants FAMILY ID (Self.Index.first_of LAST) (Self.Index.second_of LAST) Self.Index.seconds };

    ghost columns: { Columns N FAMILY NUMBERS };

    ghost small: { Small FAMILY (numbers_layout FAMILY NUMBERS) };
}

// A family whose rows are numbers alone.
pub struct NumberFamily<K, const N: usize>(PhantomData<K>);

impl<K: NumberColumns<N>, const N: usize> Family for NumberFamily<K, N> {
    type Index = K::Index;

    type Row = NumberRow<N>;

    const FAMILY: FamilyId = K::FAMILY;

    const ID: u8 = K::ID;

    const LAST: K::Index = K::LAST;

    ghost FAMILY = { K.FAMILY };

    ghost ID = { K.ID };

    ghost LAST = { K.LAST };

    ghost layout = { numbers_row N K.FAMILY K.NUMBERS };

    ghost constants = { K.constants };

    ghost lawful = { row_lawful _ _ (λ xs. refl) (λ r. refl) (numbers_lawful K.FAMILY K.NUMBERS K.columns.stand) };

    ghost small = { record { reply = K.small.reply; writes = K.small.writes } };

    fn parse(reader: &mut Reader) -> Result<NumberRow<N>, Fault> {
        let numbers = reader.numbers(&columns_of(K::FAMILY, &K::NUMBERS))?;
        Ok(NumberRow { numbers })
    }

    fn stage(base: usize, row: &NumberRow<N>, list: &mut BoundedList<StagedWrite>) {
        stage_numbers(base, &K::NUMBERS, &row.numbers, list)
    }

    fn load<M: ParameterMemory>(memory: &mut M, base: usize) -> NumberRow<N> {
        NumberRow {
            numbers: load_row(memory, base, &K::NUMBERS),
        }
    }

    fn emit(row: &NumberRow<N>, reply: &mut Reply) {
        put_values(&columns_of(K::FAMILY, &K::NUMBERS), &row.numbers, reply)
    }
}
