// The values of a row, into staged writes and out of a memory.
ghost use Rattle.std.specs.Prelude.{◌≡◌, ℕ, ◌+◌, ◌-◌, ◌<◌, ◌≤◌, ◌∷◌, ◌++◌, length, slice_index};
ghost use Rattle.lists.specs.Items.{items, room};
ghost use Rattle.memory.specs.Uses.{OnlyRead};
ghost use Rattle.blocks.specs.Layouts.{placed, number_slots, list_slots, cells_at, list_in};

use lists::list::BoundedList;
use memory::ParameterMemory;
use tables::work::StagedWrite;
use values::phases::PhaseList;

// The columns of a row are counted from 1; a row begins at its base cell, whose number fits what a staged write holds. Types
// of their own for the two would be no plainer: each would be made for one call and taken apart in it. Columns are widened by
// `as`, as lengths are in `values`, where `usize::from` was tried.

// Stages a number for each column.
pub fn stage_numbers(
    base: usize,
    columns: &[u8],
    numbers: &[u16],
    list: &mut BoundedList<StagedWrite>,
)
    requires same { length columns.now ≡ length numbers.now }
    requires room { length (items list.old) + length numbers.now ≤ room list.old }
    requires base { base ≤ 60000 }
    requires columns { (i : ℕ) → i < length columns.now → 1 ≤ slice_index columns.now i }
    ensures pushed { items list.new ≡ items list.old ++ placed base (number_slots columns.now) numbers.now }
    ensures room { room list.new ≡ room list.old }
{
    for (column, number) in columns.iter().zip(numbers) {
        let cell = base + (*column as usize - 1);
        let _ = list.push(StagedWrite {
            cell: cell as u16,
            value: *number,
        });
    }
}

// Stages a list: its length, then all its sixteen octets.
pub fn stage_list(base: usize, column: u8, phases: &PhaseList, list: &mut BoundedList<StagedWrite>)
    requires room { length (items list.old) + 17 ≤ room list.old }
    requires base { base ≤ 60000 }
    requires column { 1 ≤ column }
    ensures pushed { items list.new ≡ items list.old ++ placed base (list_slots column) (phases.now.len ∷ phases.now.phases) }
    ensures room { room list.new ≡ room list.old }
{
    let first = base + (column as usize - 1);
    let _ = list.push(StagedWrite {
        cell: first as u16,
        value: phases.len,
    });
    for (i, octet) in phases.phases.iter().enumerate() {
        let _ = list.push(StagedWrite {
            cell: (first + (i + 1)) as u16,
            value: *octet,
        });
    }
}

// Loads a number for each column, into fixed memory.
pub fn load_numbers<M: ParameterMemory>(
    memory: &mut M,
    base: usize,
    columns: &[u8],
    out: &mut [u16],
)
    requires sound { M.sound memory.old }
    requires same { length columns.now ≡ length out.old }
    requires base { base ≤ 60000 }
    requires columns { (i : ℕ) → i < length columns.now → (1 ≤ slice_index columns.now i) × (base + (slice_index columns.now i - 1) < length (M.cells memory.old)) }
    ensures read { OnlyRead M.ParameterMemory memory.old memory.new }
    ensures loaded { out.new ≡ cells_at (M.cells memory.old) base (number_slots columns.now) }
{
    // by index: a zip over `iter_mut` was tried, and the proof did not close
    for (i, column) in columns.iter().enumerate() {
        out[i] = memory.read(base + (*column as usize - 1)).unwrap();
    }
}

// Loads as many numbers as columns are known of.
pub fn load_row<M: ParameterMemory, const N: usize>(
    memory: &mut M,
    base: usize,
    columns: &[u8; N],
) -> [u16; N]
    requires sound { M.sound memory.old }
    requires base { base ≤ 60000 }
    requires columns { (i : ℕ) → i < N → (1 ≤ slice_index columns.now i) × (base + (slice_index columns.now i - 1) < length (M.cells memory.old)) }
    ensures read { OnlyRead M.ParameterMemory memory.old memory.new }
    ensures loaded { result ≡ cells_at (M.cells memory.old) base (number_slots columns.now) }
{
    let mut numbers = [0u16; N];
    load_numbers(memory, base, columns, &mut numbers);
    numbers
}

// Loads the first octets of a list, so many of them, and leaves the others: a list is held in fixed memory.
fn load_octets<M: ParameterMemory>(memory: &mut M, from: usize, out: &mut [u16])
    requires sound { M.sound memory.old }
    requires within { from + length out.old ≤ length (M.cells memory.old) }
    requires from { from ≤ 60300 }
    requires few { length out.old ≤ 16 }
    ensures read { OnlyRead M.ParameterMemory memory.old memory.new }
    ensures loaded { (i : ℕ) → i < length out.new → slice_index out.new i ≡ slice_index (M.cells memory.old) (from + i) }
{
    for (i, octet) in out.iter_mut().enumerate() {
        *octet = memory.read(from + i).unwrap();
    }
}

// Loads a list; a length above 16 counts as 16, and the octets past the length as 0.
pub fn load_list<M: ParameterMemory>(memory: &mut M, base: usize, column: u8) -> PhaseList
    requires sound { M.sound memory.old }
    requires base { base ≤ 60000 }
    requires column { 1 ≤ column }
    requires within { base + (column - 1) + 17 ≤ length (M.cells memory.old) }
    ensures read { OnlyRead M.ParameterMemory memory.old memory.new }
    ensures loaded { result ≡ list_in (cells_at (M.cells memory.old) base (list_slots column)) }
{
    let first = base + (column as usize - 1);
    let len = memory.read(first).unwrap().min(16);
    let mut phases = [0u16; 16];
    load_octets(memory, first + 1, &mut phases[..len as usize]);
    PhaseList { len, phases }
}
