ghost use Rattle.std.specs.Prelude.{◌≡◌, ℕ, ◌+◌, ◌-◌, ◌*◌, ◌/◌, ◌<◌, ◌≤◌, List, [], length, drop, MatchResult, slice_index, slice_index_or};
ghost use Rattle.tables.specs.Places.{address_from};
ghost use Rattle.transfers.specs.Items.{Whole, Miscounted, number_from, address_at, sent_at};

use super::refusal::Refusal;

// The octets of the items of a get or a set, each of `size` octets; the body is what follows the operation.
pub fn items_of(body: &[u8], size: usize) -> Result<&[u8], Refusal>
    requires { size ≤ 6 }
    ensures { MatchResult result (λ items. Whole size body.now × (items.now ≡ drop 1 body.now)) (λ e. Miscounted size body.now e) }
{
    let [count, items @ ..] = body else {
        return Err(Refusal::Missing(1));
    };
    let count = usize::from(*count);
    if !(1..=32).contains(&count) {
        return Err(Refusal::ItemCount);
    }
    let wanted = count * size;
    if items.len() < wanted {
        return Err(Refusal::Missing((items.len() + 2) as u16));
    }
    if items.len() > wanted {
        return Err(Refusal::Over((wanted + 2) as u16));
    }
    Ok(items)
}

// The addresses that so many items begin with.
pub fn addresses_in(items: &[u8], count: usize) -> &[[u8; 4]]
    requires { 4 * count ≤ length items.now }
    ensures count { length result.now ≡ count }
    ensures each { (body : List ℕ) (k : ℕ) → items.now ≡ drop 1 body → k < count → address_from (slice_index_or result.now k []) ≡ address_at body k }
{
    let (addresses, _) = items[..4 * count].as_chunks();
    addresses
}

// The values behind the addresses of so many items.
pub fn values_in(items: &[u8], count: usize) -> &[[u8; 2]]
    requires { 4 * count ≤ length items.now }
    ensures count { length result.now ≡ (length items.now - 4 * count) / 2 }
    ensures each { (body : List ℕ) (k : ℕ) → items.now ≡ drop 1 body → 4 * count + 2 * k + 2 ≤ length items.now → number_from (slice_index_or result.now k []) ≡ sent_at body count k }
{
    let (values, _) = items[4 * count..].as_chunks();
    values
}
