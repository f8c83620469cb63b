ghost use Rattle.std.proofs.Common.{refl, lit<, lit≤};
ghost use Rattle.tables.specs.declared.family.FamilyId.TheVariants.{VehicleDetector};
ghost use Rattle.families.specs.Families.{numbers_in};

use super::numbers::{NumberColumns, NumberFamily, NumberRow};
use tables::family::FamilyId;

// Options, call phase, switch phase, delay, extend, queue limit, no activity, maximum presence, erratic counts and
// fail time.
pub type VehicleDetectorRow = NumberRow<10>;

pub type VehicleDetectors = NumberFamily<VehicleDetectorColumns, 10>;

pub struct VehicleDetectorColumns;

impl NumberColumns<10> for VehicleDetectorColumns {
    type Index = u8;

    const FAMILY: FamilyId = FamilyId::VehicleDetector;

    const ID: u8 = 1;

    const LAST: u8 = 64;

    const NUMBERS: [u8; 10] = [1, 2, 3, 4, 5, 6, 7, 8, 9, 10];

    ghost FAMILY = { VehicleDetector };

    ghost ID = { 1 };

    ghost LAST = { 64 };

    ghost NUMBERS = { numbers_in VehicleDetector };

    ghost constants = { record { id = refl; last_first = refl; last_second = refl; indexed = lit≤ tt } };

    ghost columns = { record { few = lit< tt; size = refl; stand = tt } };

    ghost small = { record { reply = lit≤ tt; writes = lit≤ tt } };
}
