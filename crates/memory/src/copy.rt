// Any memory copied into any other, and compared with it.
ghost use Rattle.std.specs.Prelude.{◌≡◌, ◌+◌, ◌<◌, length, is_ok, IfOk, MatchResult, ◌==◌};
ghost use Rattle.memory.specs.Cells.{differing};
ghost use Rattle.memory.specs.Uses.{OnlyRead, CellsAlone};

use super::ParameterMemory;

// The two memories have not the same number of cells.
#[derive(Clone, Copy, Debug, PartialEq, Eq)]
pub struct CountsDiffer;

// Makes the cells of `to` those of `from`. Where the counts differ, no cell changes.
pub fn copy_cells<A: ParameterMemory, B: ParameterMemory>(
    from: &mut A,
    to: &mut B,
) -> Result<(), CountsDiffer>
    requires sound { A.ParameterMemory.sound from.old × B.ParameterMemory.sound to.old }
    ensures from { OnlyRead A.ParameterMemory from.old from.new }
    ensures to { CellsAlone B.ParameterMemory to.old to.new }
    ensures test { is_ok result ≡ (length (A.ParameterMemory.cells from.old) == length (B.ParameterMemory.cells to.old)) }
    ensures copied { MatchResult result
        (λ _. B.ParameterMemory.cells to.new ≡ A.ParameterMemory.cells from.old)
        (λ _. B.ParameterMemory.cells to.new ≡ B.ParameterMemory.cells to.old) }
{
    let count = from.count();
    if to.count() != count {
        return Err(CountsDiffer);
    }
    // Over cell numbers, since a memory is known by them alone, and a read changes it.
    for at in 0..count {
        if let Some(value) = from.read(at) {
            let _ = to.write(at, value);
        }
    }
    Ok(())
}

// How many cells differ between `a` and `b`.
pub fn count_differing<A: ParameterMemory, B: ParameterMemory>(
    a: &mut A,
    b: &mut B,
) -> Result<usize, CountsDiffer>
    requires sound { A.ParameterMemory.sound a.old × B.ParameterMemory.sound b.old }
    ensures a { OnlyRead A.ParameterMemory a.old a.new }
    ensures b { OnlyRead B.ParameterMemory b.old b.new }
    ensures test { is_ok result ≡ (length (A.ParameterMemory.cells a.old) == length (B.ParameterMemory.cells b.old)) }
    ensures value { IfOk result (λ n. n ≡ differing (A.ParameterMemory.cells a.old) (B.ParameterMemory.cells b.old)) }
{
    let count = a.count();
    if b.count() != count {
        return Err(CountsDiffer);
    }
    let mut found = 0;
    // Over cell numbers, since a memory is known by them alone, and a read changes it.
    for at in 0..count {
        if a.read(at) != b.read(at) {
            found += 1;
        }
    }
    Ok(found)
}
