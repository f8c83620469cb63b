ghost use Rattle.std.proofs.Common.{refl, lit<, lit≤};
ghost use Rattle.tables.specs.declared.family.FamilyId.TheVariants.{PedestrianDetector};
ghost use Rattle.families.specs.Families.{numbers_in};

use super::numbers::{NumberColumns, NumberFamily, NumberRow};
use tables::family::FamilyId;

// Call phase, no activity, maximum presence and erratic counts.
pub type PedestrianDetectorRow = NumberRow<4>;

pub type PedestrianDetectors = NumberFamily<PedestrianDetectorColumns, 4>;

pub struct PedestrianDetectorColumns;

impl NumberColumns<4> for PedestrianDetectorColumns {
    type Index = u8;

    const FAMILY: FamilyId = FamilyId::PedestrianDetector;

    const ID: u8 = 2;

    const LAST: u8 = 8;

    const NUMBERS: [u8; 4] = [1, 2, 3, 4];

    ghost FAMILY = { PedestrianDetector };

    ghost ID = { 2 };

    ghost LAST = { 8 };

    ghost NUMBERS = { numbers_in PedestrianDetector };

    ghost constants = { record { id = refl; last_first = refl; last_second = refl; indexed = lit≤ tt } };

    ghost columns = { record { few = lit< tt; size = refl; stand = tt } };

    ghost small = { record { reply = lit≤ tt; writes = lit≤ tt } };
}
