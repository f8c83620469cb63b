// The memory that holds the whole table in as few octets as its tops allow.
ghost use Rattle.std.specs.Prelude.{◌≡◌, ◌+◌, ◌-◌, ◌*◌, ◌/◌, ◌%◌, ◌<◌, ◌∷◌};
ghost use Rattle.memory.specs.Top.{cell_count, octet_of};
ghost use Rattle.memory.specs.Held.{packed_cells, packed_spare, OctetsDetermined};

use super::{
    CELLS, DETECTOR_CELLS, DETECTORS_END, PACKED_OCTETS, PHASE_CELLS, PHASES_END, ParameterMemory,
    Refused, is_wide, top_of,
};

// The octet at which the cell `at` begins: one for each cell below it, and one more for each wide one, of which each of
// the 16 phase rows and each of the 64 detector rows has one.
#[tactic(auto, using(crate::proofs::Octets::octet_cases))]
fn octet_of(at: usize) -> usize
    requires { at < cell_count }
    ensures { result ≡ octet_of at }
{
    if at < PHASES_END {
        at + (at + 18) / PHASE_CELLS
    } else if at < DETECTORS_END {
        at + (16 + (at - PHASES_END + 6) / DETECTOR_CELLS)
    } else {
        at + 80
    }
}

// One octet to a narrow cell, two, the high one first, to a wide one. Octets of any other length than that of the whole
// table hold no cells.
#[derive(Drop)]
pub struct PackedMemory<'a> {
    pub octets: &'a mut [u8],
}

impl<'a> ParameterMemory for PackedMemory<'a> {
    ghost cells = { λ m. packed_cells m.octets.now };

    ghost kept = { λ m. m.octets.ghost_name ∷ packed_spare m.octets.now };

    #[tactic(auto, using(crate::proofs::Octets::packed_facts))]
    fn count(&self) -> usize {
        if self.octets.len() == PACKED_OCTETS {
            CELLS
        } else {
            0
        }
    }

    #[tactic(auto, using(crate::proofs::Octets::packed_facts))]
    fn read(&mut self, at: usize) -> Option<u16> {
        if at >= self.count() {
            return None;
        }
        let from = octet_of(at);
        let first = self.octets[from];
        if is_wide(at) {
            let second = self.octets[from + 1];
            Some(u16::from_be_bytes([first, second]))
        } else {
            Some(u16::from(first))
        }
    }

    #[tactic(auto, using(crate::proofs::Octets::packed_facts))]
    fn write(&mut self, at: usize, value: u16) -> Result<(), Refused> {
        if at >= self.count() || value > top_of(at) {
            return Err(Refused);
        }
        let from = octet_of(at);
        let [high, low] = value.to_be_bytes();
        if is_wide(at) {
            self.octets[from] = high;
            self.octets[from + 1] = low;
        } else {
            self.octets[from] = low;
        }
        Ok(())
    }
}

// Octets are known by their cells and those that are no cell's: nothing of the lent octets is left out of the two.
#[tactic(auto, using(crate::proofs::Octets::octets_determined))]
pub fn octets_are_cells_and_spare()
    ensures { OctetsDetermined }
{}
