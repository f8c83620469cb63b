ghost use Rattle.std.specs.Prelude.{◌≡◌, ◌≤◌, [], ◌∷◌, length, MatchResult};
ghost use Rattle.memory.specs.Top.{cell_count};
ghost use Rattle.memory.specs.Uses.{CellsAlone};
ghost use Rattle.lists.specs.Items.{items, room};
ghost use Rattle.tables.specs.declared.family.FamilyId.{FamilyId};
ghost use Rattle.headers.specs.Headers.{family_named};
ghost use Rattle.blocks.specs.Blocks.{BlockMeans};
ghost use Rattle.families.specs.Families.{layout_of};
ghost use Rattle.transfers.specs.Gets.{accepted, refused};
ghost use Rattle.block_requests.specs.Faults.{BlockFaults};
ghost use Rattle.block_requests.specs.Transfers.{SetBlockTo};

use super::fault::refusal_of;
use blocks::rows::read_block;
use families::action::Actions;
use families::pattern::Patterns;
use families::pedestrian_detector::PedestrianDetectors;
use families::phase::Phases;
use families::sequence::Sequences;
use families::split::Splits;
use families::vehicle_detector::VehicleDetectors;
use headers::family_named;
use lists::list::BoundedList;
use memory::ParameterMemory;
use tables::family::FamilyId;
use tables::work::StagedWrite;
use transfers::refusal::Refusal;
use transfers::set::write_staged;
use values::Fault;

// Stages the writes of a block's rows, by the family that the block names.
fn stage_block(block: &[u8], list: &mut BoundedList<StagedWrite>) -> Result<(), Fault>
    requires room { 1024 ≤ room list.old }
    requires empty { items list.old ≡ [] }
    ensures { MatchResult result (λ _. (f : FamilyId) × family_named.Means block.now 0 f 2 × BlockMeans f (layout_of f) block.now (items list.new)) (λ w. BlockFaults block.now w) }
{
    match family_named(block)? {
        FamilyId::Phase => read_block::<Phases>(block, list),
        FamilyId::VehicleDetector => read_block::<VehicleDetectors>(block, list),
        FamilyId::PedestrianDetector => read_block::<PedestrianDetectors>(block, list),
        FamilyId::Pattern => read_block::<Patterns>(block, list),
        FamilyId::Split => read_block::<Splits>(block, list),
        FamilyId::Action => read_block::<Actions>(block, list),
        FamilyId::Sequence => read_block::<Sequences>(block, list),
    }
}

// Has the draft take a block's rows, all or none. The body is what follows the operation's octet.
pub fn set_block<D: ParameterMemory>(
    draft: &mut D,
    body: &[u8],
    writes: &mut [StagedWrite],
) -> Result<(), Refusal>
    requires sound { D.sound draft.old }
    requires count { length (D.cells draft.old) ≡ cell_count }
    requires room { 1024 ≤ length writes.old }
    ensures rest { CellsAlone D.ParameterMemory draft.old draft.new }
    ensures outcome { MatchResult result
        (λ _. SetBlockTo (D.cells draft.old) body.now (accepted (0 ∷ [])) (D.cells draft.new))
        (λ e. SetBlockTo (D.cells draft.old) body.now (refused e) (D.cells draft.new)) }
{
    let mut staged = BoundedList::new(writes);
    stage_block(body, &mut staged).map_err(|fault| refusal_of(fault, body.len()))?;
    write_staged(draft, staged.as_slice());
    Ok(())
}
