ghost use Rattle.std.specs.Prelude.{◌≡◌, ℕ, ◌≤◌, false, ◌⊎◌, List, length, drop, MatchResult};
ghost use Rattle.memory.specs.Uses.{CellsAlone};
ghost use Rattle.replies.specs.Replies.{reply_room, padded};
ghost use Rattle.transfers.specs.Refusals.{refusal_octets, unanswered};
ghost use Rattle.transfers.specs.Gets.{accepted, refused};
ghost use Rattle.unit.specs.Steps.{Answered, OneOutcome, Requested, lent, moment};
ghost use Rattle.unit.specs.Calls.{Kept, Sound, here};

use super::answer::Answer;
use super::call::UnitCall;
use memory::{CELLS, ParameterMemory};
use replies::{Position, REPLY_OCTETS, Reply};
use tables::work::{Finding, StagedWrite};
use transfers::refusal::Refusal;

// How many staged writes and findings a call needs room for.
pub const WRITES: usize = 1024;

pub const FINDINGS: usize = 64;

// What fills the work lists before a call: they may hold anything.
pub const NO_WRITE: StagedWrite = StagedWrite { cell: 0, value: 0 };

pub const NO_FINDING: Finding = Finding {
    rule: 0,
    high: 0,
    low: 0,
};

// Answers the request's octets; the length of an accepted request's reply.
fn reply_to<R: ParameterMemory, D: ParameterMemory>(
    unit: &mut UnitCall<R, D>,
    octets: &[u8],
    writes: &mut [StagedWrite],
    memory: &mut [u8],
) -> Result<usize, Refusal>
    requires sound { Sound R.ParameterMemory D.ParameterMemory unit.old }
    requires room { 1024 ≤ length writes.old }
    requires long { reply_room ≤ length memory.old }
    ensures sound { Sound R.ParameterMemory D.ParameterMemory unit.new }
    ensures kept { Kept R.ParameterMemory D.ParameterMemory unit.old unit.new }
    ensures outcome { MatchResult result
        (λ n. (os : List ℕ) × Answered (here R.ParameterMemory D.ParameterMemory unit.old) octets.now (accepted os) (here R.ParameterMemory D.ParameterMemory unit.new) × (memory.new ≡ padded os memory.old) × (n ≡ length os))
        (λ e. Answered (here R.ParameterMemory D.ParameterMemory unit.old) octets.now (refused e) (here R.ParameterMemory D.ParameterMemory unit.new) × (unanswered e ≡ false) × (drop reply_room memory.new ≡ drop reply_room memory.old)) }
{
    let mut position = Position { length: 0 };
    let mut reply = Reply::begin(memory, &mut position);
    unit.answer(octets, writes, &mut reply)?;
    reply.pad();
    reply.finish();
    Ok(position.length)
}

// Replies with a refusal's number, layer and place; the reply's length.
fn refuse(memory: &mut [u8], refusal: Refusal) -> usize
    requires { reply_room ≤ length memory.old }
    ensures memory { memory.new ≡ padded (refusal_octets refusal) memory.old }
    ensures length { result ≡ 4 }
{
    let mut position = Position { length: 0 };
    let mut reply = Reply::begin(memory, &mut position);
    reply.put(refusal.number());
    reply.put(refusal.layer());
    reply.put_number(refusal.place());
    reply.pad();
    reply.finish();
    position.length
}

// One request to the unit, with the mode that the call before returned: any octet, as C hands it in. The reply is in the first octets of reply
// memory, and zeros follow it up to octet 1,024. The work lists may hold anything.
pub fn request<R: ParameterMemory, D: ParameterMemory>(
    mode: u8,
    running: &mut R,
    draft: &mut D,
    octets: &[u8],
    reply: &mut [u8],
    writes: &mut [StagedWrite],
    findings: &mut [Finding],
) -> Answer
    requires sound { R.ParameterMemory.sound running.old × D.ParameterMemory.sound draft.old }
    ensures running { CellsAlone R.ParameterMemory running.old running.new }
    ensures draft { CellsAlone D.ParameterMemory draft.old draft.new }
    ensures requested { Requested (moment (R.ParameterMemory.cells running.old) (D.ParameterMemory.cells draft.old) mode) (lent (length reply.old) (length writes.old) (length findings.old)) octets.now reply.old result reply.new (moment (R.ParameterMemory.cells running.new) (D.ParameterMemory.cells draft.new) result.mode) }
    ensures lists { (result.number ≡ 9) ⊎ (result.number ≡ 1) → (writes.new ≡ writes.old) × (findings.new ≡ findings.old) }
{
    if running.count() != CELLS || draft.count() != CELLS {
        return Answer::unreplied(Refusal::MemoryCount, mode);
    }
    if reply.len() < REPLY_OCTETS || writes.len() < WRITES || findings.len() < FINDINGS {
        return Answer::unreplied(Refusal::Room, mode);
    }
    let mut unit = UnitCall {
        running,
        draft,
        mode,
    };
    match reply_to(&mut unit, octets, writes, reply) {
        Ok(length) => Answer {
            number: 0,
            mode: unit.mode,
            length,
        },
        Err(refusal) => Answer {
            number: refusal.number(),
            mode: unit.mode,
            length: refuse(reply, refusal),
        },
    }
}

// What a request returns and leaves is told by what it is handed alone.
pub fn a_request_has_one_outcome()
    ensures { OneOutcome }
{}
