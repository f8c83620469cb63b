ghost use Rattle.std.proofs.Common.{refl, lit<, lit≤};
ghost use Rattle.tables.specs.declared.family.FamilyId.TheVariants.{Pattern};
ghost use Rattle.families.specs.Families.{numbers_in};

use super::numbers::{NumberColumns, NumberFamily, NumberRow};
use tables::family::FamilyId;

// Cycle, offset and sequence number; a block does not carry the split number.
pub type PatternRow = NumberRow<3>;

pub type Patterns = NumberFamily<PatternColumns, 3>;

pub struct PatternColumns;

impl NumberColumns<3> for PatternColumns {
    type Index = u8;

    const FAMILY: FamilyId = FamilyId::Pattern;

    const ID: u8 = 3;

    const LAST: u8 = 32;

    const NUMBERS: [u8; 3] = [1, 2, 4];

    ghost FAMILY = { Pattern };

    ghost ID = { 3 };

    ghost LAST = { 32 };

    ghost NUMBERS = { numbers_in Pattern };

    ghost constants = { record { id = refl; last_first = refl; last_second = refl; indexed = lit≤ tt } };

    ghost columns = { record { few = lit< tt; size = refl; stand = tt } };

    ghost small = { record { reply = lit≤ tt; writes = lit≤ tt } };
}
