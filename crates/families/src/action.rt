ghost use Rattle.std.proofs.Common.{refl, lit<, lit≤};
ghost use Rattle.tables.specs.declared.family.FamilyId.TheVariants.{Action};
ghost use Rattle.families.specs.Families.{numbers_in};

use super::numbers::{NumberColumns, NumberFamily, NumberRow};
use tables::family::FamilyId;

// Pattern, auxiliary function and special function.
pub type ActionRow = NumberRow<3>;

pub type Actions = NumberFamily<ActionColumns, 3>;

pub struct ActionColumns;

impl NumberColumns<3> for ActionColumns {
    type Index = u8;

    const FAMILY: FamilyId = FamilyId::Action;

    const ID: u8 = 5;

    const LAST: u8 = 32;

    const NUMBERS: [u8; 3] = [1, 2, 3];

    ghost FAMILY = { Action };

    ghost ID = { 5 };

    ghost LAST = { 32 };

    ghost NUMBERS = { numbers_in Action };

    ghost constants = { record { id = refl; last_first = refl; last_second = refl; indexed = lit≤ tt } };

    ghost columns = { record { few = lit< tt; size = refl; stand = tt } };

    ghost small = { record { reply = lit≤ tt; writes = lit≤ tt } };
}
