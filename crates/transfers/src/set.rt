ghost use Rattle.std.specs.Prelude.{◌≡◌, ℕ, ◌+◌, ◌*◌, ◌<◌, ◌≤◌, List, [], ◌∷◌, ◌++◌, length, drop, MatchResult};
ghost use Rattle.memory.specs.Top.{cell_count, top_of};
ghost use Rattle.memory.specs.Uses.{CellsAlone};
ghost use Rattle.lists.specs.Items.{items as listed, room};
ghost use Rattle.tables.specs.Places.{address_from};
ghost use Rattle.tables.specs.Allowed.{Stores};
ghost use Rattle.transfers.specs.Items.{address_at, count_in, number_from, sent_at, Whole};
ghost use Rattle.transfers.specs.Gets.{accepted, refused};
ghost use Rattle.transfers.specs.Sets.{Writes, ItemFault, FirstFault, Taken, SetTo, cell_at, value_at};

use super::items::{addresses_in, items_of, values_in};
use super::refusal::Refusal;
use lists::list::BoundedList;
use memory::ParameterMemory;
use tables::address::{Address, Unstored};
use tables::work::StagedWrite;

// The write that an item of `count` asks for by its address and value, or why it asks for none.
fn write_of_item(
    count: usize,
    item: usize,
    address: [u8; 4],
    value: [u8; 2],
) -> Result<StagedWrite, Refusal>
    requires within { item < count }
    requires few { count ≤ 32 }
    ensures { (body : List ℕ) → address_from address ≡ address_at body item → number_from value ≡ sent_at body count item → count_in body ≡ count → MatchResult result (λ w. Stores (address_at body item) (sent_at body count item) w.cell w.value) (λ e. ItemFault body item e) }
{
    Address::from(address)
        .write_of(u16::from_be_bytes(value))
        .map_err(|unstored| match unstored {
            Unstored::NoNumber => Refusal::NoNumber((4 * item + 2) as u16),
            Unstored::NotAllowed => Refusal::NotAllowed((4 * count + 2 * item + 2) as u16),
        })
}

// Stages the writes of all items; the body is what follows the operation's octet.
fn stage_items(
    body: &[u8],
    items: &[u8],
    staged: &mut BoundedList<StagedWrite>,
) -> Result<(), Refusal>
    requires whole { Whole 6 body.now }
    requires items { items.now ≡ drop 1 body.now }
    requires empty { listed staged.old ≡ [] }
    requires room { 32 ≤ room staged.old }
    ensures { MatchResult result (λ _. Writes body.now (count_in body.now) (listed staged.new)) (λ e. (k : ℕ) × FirstFault body.now k e) }
{
    let count = items.len() / 6;
    let values = values_in(items, count);
    // The value by index: a `zip` was tried, and the proof did not close.
    for (item, address) in addresses_in(items, count).iter().enumerate() {
        let write = write_of_item(count, item, *address, values[item])?;
        staged.push(write)?;
    }
    Ok(())
}

// Makes the staged writes, in order.
pub fn write_staged<D: ParameterMemory>(draft: &mut D, writes: &[StagedWrite])
    requires sound { D.sound draft.old }
    requires count { length (D.cells draft.old) ≡ cell_count }
    requires fit { (k : ℕ) → k < length writes.now → (cell_at writes.now k < cell_count) × (value_at writes.now k ≤ top_of (cell_at writes.now k)) }
    ensures rest { CellsAlone D.ParameterMemory draft.old draft.new }
    ensures taken { Taken (D.cells draft.old) writes.now (D.cells draft.new) }
{
    for write in writes {
        let _ = draft.write(usize::from(write.cell), write.value);
    }
}

// Has the draft take a set's items, all or none, in order. The body is what follows the operation's octet.
pub fn set_items<D: ParameterMemory>(
    draft: &mut D,
    body: &[u8],
    writes: &mut [StagedWrite],
) -> Result<(), Refusal>
    requires sound { D.sound draft.old }
    requires count { length (D.cells draft.old) ≡ cell_count }
    requires room { 1024 ≤ length writes.old }
    ensures rest { CellsAlone D.ParameterMemory draft.old draft.new }
    ensures outcome { MatchResult result
        (λ _. SetTo (D.cells draft.old) body.now (accepted (0 ∷ [])) (D.cells draft.new))
        (λ e. SetTo (D.cells draft.old) body.now (refused e) (D.cells draft.new)) }
{
    let items = items_of(body, 6)?;
    let mut staged = BoundedList::new(writes);
    stage_items(body, items, &mut staged)?;
    write_staged(draft, staged.as_slice());
    Ok(())
}
