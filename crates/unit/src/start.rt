ghost use Rattle.std.specs.Prelude.{◌≡◌, ℕ, ◌+◌, ◌<◌, ◌≤◌, length, MatchResult};
ghost use Rattle.memory.specs.Uses.{CellsAlone};
ghost use Rattle.unit.specs.States.{Started, NotStarted};
ghost use Rattle.unit.specs.Steps.{FactoryStarted};

use super::answer::{Answer, QUIET};
use super::states::Quiet;
use memory::{CELLS, ParameterMemory};
use tables::factory::factory_value;
use transfers::refusal::Refusal;

// Writes the factory table to the running memory and begins quiet; refused where the count of cells is not the table's.
pub fn begin<R: ParameterMemory>(running: &mut R) -> Result<Quiet, Refusal>
    requires sound { R.sound running.old }
    ensures rest { CellsAlone R.ParameterMemory running.old running.new }
    ensures started { MatchResult result (λ q. Started (R.cells running.old) (R.cells running.new) q) (λ e. NotStarted (R.cells running.old) (R.cells running.new) e) }
{
    if running.count() != CELLS {
        return Err(Refusal::MemoryCount);
    }
    // Over cell numbers, since a memory is known by them alone.
    for cell in 0..CELLS {
        let _ = running.write(cell, factory_value(cell));
    }
    Ok(Quiet::new())
}

// The same start, answered by numbers.
pub fn factory_start<R: ParameterMemory>(running: &mut R) -> Answer
    requires sound { R.sound running.old }
    ensures rest { CellsAlone R.ParameterMemory running.old running.new }
    ensures started { FactoryStarted (R.cells running.old) result (R.cells running.new) }
{
    match begin(running) {
        Ok(quiet) => Answer {
            number: 0,
            mode: quiet.into_mode(),
            length: 0,
        },
        Err(refusal) => Answer::unreplied(refusal, QUIET),
    }
}
