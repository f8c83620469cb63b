// The calls that each state has.
ghost use Rattle.std.specs.Prelude.{◌≡◌, ◌<◌, ◌≤◌, ◌⊎◌, length, MatchResult, ◌≢◌};
ghost use Rattle.memory.specs.Top.{cell_count};
ghost use Rattle.memory.specs.Uses.{CellsAlone, OnlyRead};
ghost use Rattle.transfers.specs.declared.refusal.Refusal.TheVariants.{MemoryCount, Room};
ghost use Rattle.transfers.specs.Sets.{SetTo};
ghost use Rattle.block_requests.specs.Transfers.{SetBlockTo};
ghost use Rattle.unit.specs.States.{Opened, NotOpened, SetHere};

use super::{Editing, Quiet, State, Unopened};
use crate::request::WRITES;
use block_requests::set_block::set_block;
use memory::copy::copy_cells;
use memory::{CELLS, ParameterMemory};
use tables::work::StagedWrite;
use transfers::refusal::Refusal;
use transfers::set::set_items;

impl State<0> {
    // The state that a unit begins in.
    pub(crate) fn new() -> Quiet
        ensures { result.mode ≡ 0 }
    {
        State { mode: 0 }
    }

    // Opens an edit: the draft's cells become the running table's.
    pub fn open<R: ParameterMemory, D: ParameterMemory>(
        self,
        running: &mut R,
        draft: &mut D,
    ) -> Result<Editing, Unopened>
        requires sound { R.ParameterMemory.sound running.old × D.ParameterMemory.sound draft.old }
        ensures running { OnlyRead R.ParameterMemory running.old running.new }
        ensures draft { CellsAlone D.ParameterMemory draft.old draft.new }
        ensures opened { MatchResult result
            (λ e. Opened (R.ParameterMemory.cells running.old) (D.ParameterMemory.cells draft.old) (D.ParameterMemory.cells draft.new) e)
            (λ u. NotOpened self (R.ParameterMemory.cells running.old) (D.ParameterMemory.cells draft.old) (D.ParameterMemory.cells draft.new) u) }
    {
        if running.count() != CELLS
            || draft.count() != CELLS
            || copy_cells(running, draft).is_err()
        {
            return Err(Unopened {
                state: self,
                refusal: Refusal::MemoryCount,
            });
        }
        Ok(self.next())
    }
}

// What every edit needs: a draft with the table's count of cells, and room for its writes.
fn ready<D: ParameterMemory>(draft: &D, writes: &[StagedWrite]) -> Result<(), Refusal>
    requires { D.sound draft.now }
    ensures { MatchResult result
        (λ _. (length (D.cells draft.now) ≡ cell_count) × (1024 ≤ length writes.now))
        (λ e. ((length (D.cells draft.now) ≢ cell_count) × (e ≡ MemoryCount)) ⊎ ((length (D.cells draft.now) ≡ cell_count) × (length writes.now < 1024) × (e ≡ Room))) }
{
    if draft.count() != CELLS {
        return Err(Refusal::MemoryCount);
    }
    if writes.len() < WRITES {
        return Err(Refusal::Room);
    }
    Ok(())
}

impl State<1> {
    // Has the draft take the items of a set: the body is what follows the operation's octet.
    pub fn set<D: ParameterMemory>(
        &self,
        draft: &mut D,
        body: &[u8],
        writes: &mut [StagedWrite],
    ) -> Result<(), Refusal>
        requires sound { D.sound draft.old }
        ensures rest { CellsAlone D.ParameterMemory draft.old draft.new }
        ensures outcome { SetHere (λ o. SetTo (D.cells draft.old) body.now o (D.cells draft.new)) (D.cells draft.old) (length writes.old) result (D.cells draft.new) }
    {
        ready(draft, writes)?;
        set_items(draft, body, writes)
    }

    // Has the draft take the rows of a block: the body is what follows the operation's octet.
    pub fn set_block<D: ParameterMemory>(
        &self,
        draft: &mut D,
        body: &[u8],
        writes: &mut [StagedWrite],
    ) -> Result<(), Refusal>
        requires sound { D.sound draft.old }
        ensures rest { CellsAlone D.ParameterMemory draft.old draft.new }
        ensures outcome { SetHere (λ o. SetBlockTo (D.cells draft.old) body.now o (D.cells draft.new)) (D.cells draft.old) (length writes.old) result (D.cells draft.new) }
    {
        ready(draft, writes)?;
        set_block(draft, body, writes)
    }

    // Gives the edit up.
    pub fn abandon(self) -> Quiet
        ensures { result.mode ≡ 0 }
    {
        self.next()
    }
}

impl State<2> {
    // Goes on with the edit, which is then unchecked.
    pub fn resume(self) -> Editing
        ensures { result.mode ≡ 1 }
    {
        self.next()
    }

    // Gives the edit up.
    pub fn abandon(self) -> Quiet
        ensures { result.mode ≡ 0 }
    {
        self.next()
    }
}
