ghost use Rattle.std.proofs.Common.{refl, lit<, lit≤};
ghost use Rattle.tables.specs.declared.family.FamilyId.TheVariants.{Split};
ghost use Rattle.families.specs.Families.{numbers_in};

use super::numbers::{NumberColumns, NumberFamily, NumberRow};
use tables::family::FamilyId;
use tables::place::Indices;

// Time, mode and coordinated.
pub type SplitRow = NumberRow<3>;

pub type Splits = NumberFamily<SplitColumns, 3>;

pub struct SplitColumns;

impl NumberColumns<3> for SplitColumns {
    type Index = Indices;

    const FAMILY: FamilyId = FamilyId::Split;

    const ID: u8 = 4;

    const LAST: Indices = Indices {
        first: 16,
        second: 16,
    };

    const NUMBERS: [u8; 3] = [1, 2, 3];

    ghost FAMILY = { Split };

    ghost ID = { 4 };

    ghost LAST = { record { first = 16; second = 16 } };

    ghost NUMBERS = { numbers_in Split };

    ghost constants = { record { id = refl; last_first = refl; last_second = refl; indexed = lit≤ tt } };

    ghost columns = { record { few = lit< tt; size = refl; stand = tt } };

    ghost small = { record { reply = lit≤ tt; writes = lit≤ tt } };
}
