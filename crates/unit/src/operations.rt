// What each operation of a request does.
ghost use Rattle.std.specs.Prelude.{◌≡◌, ◌≤◌, true, length, MatchOption, ◌≢◌};
ghost use Rattle.replies.specs.Replies.{Fresh, SamePastRoom};
ghost use Rattle.transfers.specs.Gets.{Got};
ghost use Rattle.transfers.specs.Sets.{SetTo};
ghost use Rattle.block_requests.specs.Transfers.{GotBlock, SetBlockTo};
ghost use Rattle.unit.specs.declared.operation.Operation.TheVariants.{Set, SetBlock, Open, Abandon};
ghost use Rattle.unit.specs.Operations.{takes_mode};
ghost use Rattle.unit.specs.Steps.{Abandons, Answered, Edits, Opens, Reads, Replied};
ghost use Rattle.unit.specs.Calls.{Kept, Sound, here};

use super::call::UnitCall;
use super::operation::Operation;
use super::states::{Checked, Editing, Quiet};
use block_requests::get_block::get_block;
use memory::ParameterMemory;
use replies::Reply;
use tables::work::StagedWrite;
use transfers::get::get;
use transfers::refusal::Refusal;

// The state after an edit is given up.
fn abandoned(mode: u8) -> Option<Quiet>
    ensures { MatchOption result (takes_mode Abandon mode ≢ true) (λ _. takes_mode Abandon mode ≡ true) }
{
    if let Some(editing) = Editing::from_mode(mode) {
        return Some(editing.abandon());
    }
    let checked = Checked::from_mode(mode)?;
    Some(checked.abandon())
}

// The clauses of the operations are the same but for the relation that they name: a clause has no parameter to take it from.
impl<R: ParameterMemory, D: ParameterMemory> UnitCall<'_, '_, R, D> {
    // Answers a get, from the running table.
    fn get(&mut self, body: &[u8], reply: &mut Reply) -> Result<(), Refusal>
        requires sound { Sound R.ParameterMemory D.ParameterMemory self.old }
        requires fresh { Fresh reply.old }
        ensures sound { Sound R.ParameterMemory D.ParameterMemory self.new }
        ensures kept { Kept R.ParameterMemory D.ParameterMemory self.old self.new }
        ensures past { SamePastRoom reply.old reply.new }
        ensures outcome { Replied (λ o. Reads Got (here R.ParameterMemory D.ParameterMemory self.old) body.now o (here R.ParameterMemory D.ParameterMemory self.new)) result reply.old reply.new }
    {
        get(self.running, body, reply)
    }

    // Has the draft take a set's items.
    fn set(
        &mut self,
        body: &[u8],
        writes: &mut [StagedWrite],
        reply: &mut Reply,
    ) -> Result<(), Refusal>
        requires sound { Sound R.ParameterMemory D.ParameterMemory self.old }
        requires fresh { Fresh reply.old }
        requires room { 1024 ≤ length writes.old }
        requires taken { takes_mode Set self.old.mode ≡ true }
        ensures sound { Sound R.ParameterMemory D.ParameterMemory self.new }
        ensures kept { Kept R.ParameterMemory D.ParameterMemory self.old self.new }
        ensures past { SamePastRoom reply.old reply.new }
        ensures outcome { Replied (λ o. Edits SetTo (here R.ParameterMemory D.ParameterMemory self.old) body.now o (here R.ParameterMemory D.ParameterMemory self.new)) result reply.old reply.new }
    {
        let Some(editing) = Editing::from_mode(self.mode) else {
            return Err(Refusal::Mode);
        };
        let set = editing.set(self.draft, body, writes);
        self.mode = editing.into_mode();
        set?;
        reply.put(0);
        Ok(())
    }

    // Answers a get block, from the running table.
    fn get_block(&mut self, body: &[u8], reply: &mut Reply) -> Result<(), Refusal>
        requires sound { Sound R.ParameterMemory D.ParameterMemory self.old }
        requires fresh { Fresh reply.old }
        ensures sound { Sound R.ParameterMemory D.ParameterMemory self.new }
        ensures kept { Kept R.ParameterMemory D.ParameterMemory self.old self.new }
        ensures past { SamePastRoom reply.old reply.new }
        ensures outcome { Replied (λ o. Reads GotBlock (here R.ParameterMemory D.ParameterMemory self.old) body.now o (here R.ParameterMemory D.ParameterMemory self.new)) result reply.old reply.new }
    {
        get_block(self.running, body, reply)
    }

    // Has the draft take a block's rows. Beside `set`, since one function over both is no plainer: it would take the call
    // as a closure, and what the call means as a ghost.
    fn set_block(
        &mut self,
        body: &[u8],
        writes: &mut [StagedWrite],
        reply: &mut Reply,
    ) -> Result<(), Refusal>
        requires sound { Sound R.ParameterMemory D.ParameterMemory self.old }
        requires fresh { Fresh reply.old }
        requires room { 1024 ≤ length writes.old }
        requires taken { takes_mode SetBlock self.old.mode ≡ true }
        ensures sound { Sound R.ParameterMemory D.ParameterMemory self.new }
        ensures kept { Kept R.ParameterMemory D.ParameterMemory self.old self.new }
        ensures past { SamePastRoom reply.old reply.new }
        ensures outcome { Replied (λ o. Edits SetBlockTo (here R.ParameterMemory D.ParameterMemory self.old) body.now o (here R.ParameterMemory D.ParameterMemory self.new)) result reply.old reply.new }
    {
        let Some(editing) = Editing::from_mode(self.mode) else {
            return Err(Refusal::Mode);
        };
        let set = editing.set_block(self.draft, body, writes);
        self.mode = editing.into_mode();
        set?;
        reply.put(0);
        Ok(())
    }

    // Opens an edit.
    fn open(&mut self, body: &[u8], reply: &mut Reply) -> Result<(), Refusal>
        requires sound { Sound R.ParameterMemory D.ParameterMemory self.old }
        requires fresh { Fresh reply.old }
        requires taken { takes_mode Open self.old.mode ≡ true }
        ensures sound { Sound R.ParameterMemory D.ParameterMemory self.new }
        ensures kept { Kept R.ParameterMemory D.ParameterMemory self.old self.new }
        ensures past { SamePastRoom reply.old reply.new }
        ensures outcome { Replied (λ o. Opens (here R.ParameterMemory D.ParameterMemory self.old) body.now o (here R.ParameterMemory D.ParameterMemory self.new)) result reply.old reply.new }
    {
        if !body.is_empty() {
            return Err(Refusal::Over(1));
        }
        let Some(quiet) = Quiet::from_mode(self.mode) else {
            return Err(Refusal::Mode);
        };
        let editing = quiet
            .open(self.running, self.draft)
            .map_err(|unopened| unopened.into_refusal())?;
        self.mode = editing.into_mode();
        reply.put(0);
        Ok(())
    }

    // Gives an edit up.
    fn abandon(&mut self, body: &[u8], reply: &mut Reply) -> Result<(), Refusal>
        requires sound { Sound R.ParameterMemory D.ParameterMemory self.old }
        requires fresh { Fresh reply.old }
        requires taken { takes_mode Abandon self.old.mode ≡ true }
        ensures sound { Sound R.ParameterMemory D.ParameterMemory self.new }
        ensures kept { Kept R.ParameterMemory D.ParameterMemory self.old self.new }
        ensures past { SamePastRoom reply.old reply.new }
        ensures outcome { Replied (λ o. Abandons (here R.ParameterMemory D.ParameterMemory self.old) body.now o (here R.ParameterMemory D.ParameterMemory self.new)) result reply.old reply.new }
    {
        if !body.is_empty() {
            return Err(Refusal::Over(1));
        }
        let Some(quiet) = abandoned(self.mode) else {
            return Err(Refusal::Mode);
        };
        self.mode = quiet.into_mode();
        reply.put(0);
        Ok(())
    }

    // What the request's octets come to; an accepted request's reply is put.
    pub fn answer(
        &mut self,
        octets: &[u8],
        writes: &mut [StagedWrite],
        reply: &mut Reply,
    ) -> Result<(), Refusal>
        requires sound { Sound R.ParameterMemory D.ParameterMemory self.old }
        requires fresh { Fresh reply.old }
        requires room { 1024 ≤ length writes.old }
        ensures sound { Sound R.ParameterMemory D.ParameterMemory self.new }
        ensures kept { Kept R.ParameterMemory D.ParameterMemory self.old self.new }
        ensures past { SamePastRoom reply.old reply.new }
        ensures outcome { Replied (λ o. Answered (here R.ParameterMemory D.ParameterMemory self.old) octets.now o (here R.ParameterMemory D.ParameterMemory self.new)) result reply.old reply.new }
    {
        let [code, body @ ..] = octets else {
            return Err(Refusal::EmptyRequest);
        };
        let operation = Operation::try_from(*code)?;
        if !operation.takes_mode(self.mode) {
            return Err(Refusal::Mode);
        }
        // No plainer by closures: each operation takes its own of what was handed in.
        match operation {
            Operation::Get => self.get(body, reply),
            Operation::Set => self.set(body, writes, reply),
            Operation::GetBlock => self.get_block(body, reply),
            Operation::SetBlock => self.set_block(body, writes, reply),
            Operation::Open => self.open(body, reply),
            Operation::Abandon => self.abandon(body, reply),
        }
    }
}
