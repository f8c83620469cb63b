ghost use Rattle.std.specs.Prelude.{◌≡◌, ℕ, ◌+◌, ◌*◌, ◌≤◌, List, length, MatchOption, MatchResult};
ghost use Rattle.memory.specs.Top.{cell_count};
ghost use Rattle.memory.specs.Uses.{OnlyRead};
ghost use Rattle.replies.specs.Replies.{Fresh, Grew, SamePastRoom, reply_room};
ghost use Rattle.transfers.specs.declared.refusal.Refusal.TheVariants.{NoNumber};
ghost use Rattle.transfers.specs.Items.{Addresses, address_place};
ghost use Rattle.transfers.specs.Gets.{Value, Nameless, Values, FirstNameless, Got, accepted, refused, two_octets};

use super::items::{addresses_in, items_of};
use super::refusal::Refusal;
use memory::ParameterMemory;
use replies::Reply;
use tables::address::Address;

// The value of the number that the address names.
fn value_at<R: ParameterMemory>(running: &mut R, address: Address) -> Option<u16>
    requires sound { R.sound running.old }
    requires count { length (R.cells running.old) ≡ cell_count }
    ensures read { OnlyRead R.ParameterMemory running.old running.new }
    ensures value { MatchOption result (Nameless address) (λ v. Value (R.cells running.old) address v) }
{
    running.read(address.cell()?)
}

// Puts the values of the addresses, one after another.
fn put_values<R: ParameterMemory>(
    running: &mut R,
    addresses: &[[u8; 4]],
    reply: &mut Reply,
) -> Result<(), Refusal>
    requires sound { R.sound running.old }
    requires count { length (R.cells running.old) ≡ cell_count }
    requires few { length addresses.now ≤ 32 }
    requires front { reply.old.position.now.length + 2 * length addresses.now ≤ reply_room }
    requires room { reply_room ≤ length reply.old.octets.now }
    ensures read { OnlyRead R.ParameterMemory running.old running.new }
    ensures outcome { (body : List ℕ) → Addresses body addresses.now → MatchResult result
        (λ _. (vs : List ℕ) × Values (R.cells running.old) body (length addresses.now) vs × Grew reply.old reply.new (two_octets vs))
        (λ e. (k : ℕ) × FirstNameless body (length addresses.now) k × (e ≡ NoNumber (address_place k))) }
    ensures past { SamePastRoom reply.old reply.new }
{
    for (item, address) in addresses.iter().enumerate() {
        let Some(value) = value_at(running, Address::from(*address)) else {
            return Err(Refusal::NoNumber((4 * item + 2) as u16));
        };
        reply.put_number(value);
    }
    Ok(())
}

// Answers a get from the running table; a refused one takes the reply back. The body is what follows the operation's octet.
pub fn get<R: ParameterMemory>(
    running: &mut R,
    body: &[u8],
    reply: &mut Reply,
) -> Result<(), Refusal>
    requires sound { R.sound running.old }
    requires count { length (R.cells running.old) ≡ cell_count }
    requires fresh { Fresh reply.old }
    ensures read { OnlyRead R.ParameterMemory running.old running.new }
    ensures outcome { MatchResult result
        (λ _. (os : List ℕ) × Got (R.cells running.old) body.now (accepted os) × Grew reply.old reply.new os)
        (λ e. Got (R.cells running.old) body.now (refused e) × (reply.new.position.now.length ≡ 0)) }
    ensures past { SamePastRoom reply.old reply.new }
{
    let items = items_of(body, 4)?;
    let count = items.len() / 4;
    reply.put(0);
    reply.put(count as u8);
    if let Err(refusal) = put_values(running, addresses_in(items, count), reply) {
        reply.position.length = 0;
        return Err(refusal);
    }
    Ok(())
}
