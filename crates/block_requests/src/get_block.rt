ghost use Rattle.std.specs.Prelude.{◌≡◌, ℕ, ◌≤◌, List, ◌∷◌, length, MatchResult};
ghost use Rattle.memory.specs.Top.{cell_count};
ghost use Rattle.memory.specs.Cells.{Bounded};
ghost use Rattle.memory.specs.Uses.{OnlyRead};
ghost use Rattle.replies.specs.Replies.{Fresh, Grew, SamePastRoom, reply_room};
ghost use Rattle.tables.specs.declared.family.FamilyId.{FamilyId};
ghost use Rattle.values.specs.Reading.{whole};
ghost use Rattle.headers.specs.Headers.{family_named, spans_of};
ghost use Rattle.blocks.specs.Blocks.{BlockOf};
ghost use Rattle.families.specs.Families.{layout_of};
ghost use Rattle.transfers.specs.Gets.{accepted, refused};
ghost use Rattle.block_requests.specs.Faults.{HeaderFaults};
ghost use Rattle.block_requests.specs.Transfers.{GotBlock};

use super::fault::refusal_of;
use blocks::family::Family;
use blocks::rows::{read_header, write_block};
use families::action::Actions;
use families::pattern::Patterns;
use families::pedestrian_detector::PedestrianDetectors;
use families::phase::Phases;
use families::sequence::Sequences;
use families::split::Splits;
use families::vehicle_detector::VehicleDetectors;
use headers::family_named;
use memory::ParameterMemory;
use replies::Reply;
use tables::family::FamilyId;
use transfers::refusal::Refusal;
use values::Fault;

// Answers with a block of the family: 0, and the block of the rows that the header names.
fn put_block_of<F: Family, R: ParameterMemory>(
    running: &mut R,
    header: &[u8],
    reply: &mut Reply,
) -> Result<(), Fault>
    requires sound { R.sound running.old }
    requires count { length (R.cells running.old) ≡ cell_count }
    requires bounded { Bounded (R.cells running.old) }
    requires front { 2 ≤ length header.now }
    requires fresh { Fresh reply.old }
    ensures read { OnlyRead R.ParameterMemory running.old running.new }
    ensures outcome { MatchResult result
        (λ _. (os : List ℕ) × BlockOf F.FAMILY F.layout (R.cells running.old) header.now os × Grew reply.old reply.new (0 ∷ os) × (reply.new.position.now.length ≤ reply_room))
        (λ w. (whole (spans_of F.FAMILY)).Faults header.now 2 w × (reply.new ≡ reply.old)) }
{
    let spans = read_header::<F>(header)?;
    reply.put(0);
    write_block::<F, R>(running, spans, reply);
    Ok(())
}

// The same, by the family that the header names.
fn put_block<R: ParameterMemory>(
    running: &mut R,
    header: &[u8],
    reply: &mut Reply,
) -> Result<(), Fault>
    requires sound { R.sound running.old }
    requires count { length (R.cells running.old) ≡ cell_count }
    requires bounded { Bounded (R.cells running.old) }
    requires fresh { Fresh reply.old }
    ensures read { OnlyRead R.ParameterMemory running.old running.new }
    ensures outcome { MatchResult result
        (λ _. (f : FamilyId) × (os : List ℕ) × family_named.Means header.now 0 f 2 × BlockOf f (layout_of f) (R.cells running.old) header.now os × Grew reply.old reply.new (0 ∷ os) × (reply.new.position.now.length ≤ reply_room))
        (λ w. HeaderFaults header.now w × (reply.new ≡ reply.old)) }
{
    match family_named(header)? {
        FamilyId::Phase => put_block_of::<Phases, R>(running, header, reply),
        FamilyId::VehicleDetector => put_block_of::<VehicleDetectors, R>(running, header, reply),
        FamilyId::PedestrianDetector => put_block_of::<PedestrianDetectors, R>(
            running, header, reply,
        ),
        FamilyId::Pattern => put_block_of::<Patterns, R>(running, header, reply),
        FamilyId::Split => put_block_of::<Splits, R>(running, header, reply),
        FamilyId::Action => put_block_of::<Actions, R>(running, header, reply),
        FamilyId::Sequence => put_block_of::<Sequences, R>(running, header, reply),
    }
}

// Answers a get block from the running table. The body is what follows the operation's octet: a header without count.
pub fn get_block<R: ParameterMemory>(
    running: &mut R,
    body: &[u8],
    reply: &mut Reply,
) -> Result<(), Refusal>
    requires sound { R.sound running.old }
    requires count { length (R.cells running.old) ≡ cell_count }
    requires bounded { Bounded (R.cells running.old) }
    requires fresh { Fresh reply.old }
    ensures read { OnlyRead R.ParameterMemory running.old running.new }
    ensures outcome { MatchResult result
        (λ _. (os : List ℕ) × GotBlock (R.cells running.old) body.now (accepted os) × Grew reply.old reply.new os × (length os ≤ reply_room))
        (λ e. GotBlock (R.cells running.old) body.now (refused e) × (reply.new ≡ reply.old)) }
    ensures past { SamePastRoom reply.old reply.new }
{
    put_block(running, body, reply).map_err(|fault| refusal_of(fault, body.len()))
}
