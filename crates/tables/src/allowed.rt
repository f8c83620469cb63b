ghost use Rattle.std.specs.Prelude.{◌≡◌, true, Decides};
ghost use Rattle.tables.specs.Families.{is_list};
ghost use Rattle.tables.specs.Places.{Stands};
ghost use Rattle.tables.specs.Allowed.{both_set, allows, kind_means, stored, holds};

use super::columns::{Column, Kind};
use super::place::Place;

// Whether bits 2 and 3 are both set.
#[tactic(auto, using(crate::proofs::Options::both_bits))]
fn both_set(value: u16) -> bool
    ensures { result ≡ both_set value }
{
    value & 0b1100 == 0b1100
}

impl Kind {
    // Whether the column holds lists.
    pub fn is_list(self) -> bool
        ensures { result ≡ is_list self }
    {
        matches!(self, Kind::PhaseList)
    }

    // What a sent value means: detector options with bits 2 and 3 both set are read with bit 3 clear.
    #[tactic(auto, using(crate::proofs::Options::bit_3_off))]
    pub fn meaning(self, value: u16) -> u16
        ensures { result ≡ kind_means self value }
    {
        match self {
            Kind::DetectorOptions if both_set(value) => value & !0b1000,
            _ => value,
        }
    }
}

impl Column {
    // Whether the column may hold the value; of a list, whether one of its octets may be it.
    pub fn allows(self, value: u16) -> bool
        ensures { result ≡ allows self value }
    {
        let in_range = (self.least..=self.greatest).contains(&value);
        match self.kind {
            Kind::Number | Kind::PhaseList => in_range,
            Kind::DetectorOptions => in_range && !both_set(value),
            Kind::ActionPattern => in_range || matches!(value, 254 | 255),
        }
    }

    // The value to store for a sent one, or none where it is not allowed.
    pub fn stored(self, sent: u16) -> Option<u16>
        ensures { result ≡ stored self sent }
    {
        let value = self.kind.meaning(sent);
        self.allows(value).then_some(value)
    }
}

impl Place {
    // Whether the cell here may hold the value, in a list of this length.
    pub fn holds(self, value: u16, length: u16) -> bool
        ensures { Decides result (Stands self × (holds self value length ≡ true)) }
    {
        let Some(column) = self.family.column(self.column) else {
            return false;
        };
        if !self.stands() {
            return false;
        }
        if !column.kind.is_list() {
            return column.allows(value);
        }
        if self.octet == 0 {
            return value <= 16;
        }
        if u16::from(self.octet) <= length {
            column.allows(value)
        } else {
            value == 0
        }
    }
}
