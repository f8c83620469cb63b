ghost use Rattle.memory.specs.Cells.{Bounded};
ghost use Rattle.unit.specs.Steps.{Counts, moment};

use memory::ParameterMemory;

// The unit in a call: the memories handed to it, both with the table's count of cells and the running one with no cell
// above its top, and the mode, which C may hand in as any octet. That the memories are sound is asked by clause: a ghost
// field is a proposition, and `sound` any type.
#[derive(Drop)]
pub struct UnitCall<'r, 'd, R: ParameterMemory, D: ParameterMemory> {
    pub running: &'r mut R,
    pub draft: &'d mut D,
    pub mode: u8,
    ghost counts: { Counts (moment (R.ParameterMemory.cells running.now) (D.ParameterMemory.cells draft.now) mode) },
    ghost bounded: { Bounded (R.ParameterMemory.cells running.now) },
}
