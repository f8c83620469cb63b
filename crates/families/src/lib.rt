// The seven families of rows: what a row of each holds, and how it is read, staged, loaded and written. Each is
// a type that implements `Family`; no value of it is made.
#![tactic(auto)]

ghost use Rattle.std.specs.Prelude.{◌≡◌, T};
ghost use Rattle.blocks.specs.Layouts.{has_slots, number_slots, columns_of as those_columns};
ghost use Rattle.families.specs.Families.{EveryFamilyLawful};

use tables::columns::{COLUMNS, Column};
use tables::family::FamilyId;

pub mod action;
pub mod numbers;
pub mod pattern;
pub mod pedestrian_detector;
pub mod phase;
pub mod sequence;
pub mod split;
pub mod vehicle_detector;

// The columns of a family that have these numbers, counted from 1. Inlined: where the family is known, so are they.
#[inline(always)]
fn columns_of<const N: usize>(family: FamilyId, numbers: &[u8; N]) -> [Column; N]
    requires { T (has_slots family (number_slots numbers.now)) }
    ensures { result ≡ those_columns family numbers.now }
{
    // by index: `array::from_fn` and `map` were tried, and the proof did not close
    let mut columns = [COLUMNS[0]; N];
    for (i, number) in numbers.iter().enumerate() {
        columns[i] = family.column(*number).unwrap();
    }
    columns
}

// Each family's layout is lawful, all its rows fit one reply and one list of staged writes, and a row's cells ascend.
pub fn every_family_is_lawful()
    ensures { EveryFamilyLawful }
{}
