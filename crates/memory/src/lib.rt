// The parameter memory of a traffic signal controller, known only by its cells, numbered from 0. A cell's number alone
// fixes its top: 65,535 for a wide cell (phase options, detector delay), 255 for any other, also past the table.
#![tactic(auto)]

ghost use Rattle.std.specs.Prelude.{◌≡◌, ℕ, ◌+◌, ◌-◌, ◌/◌, ◌%◌, ◌<◌, ◌≤◌, List, ◌∷◌, length, is_ok, slice_index};
ghost use Rattle.memory.specs.Top.{wide, top_of};
ghost use Rattle.memory.specs.Cells.{read_of, takes, written, Bounded};
ghost use Rattle.memory.specs.Held.{word_cells, word_highs, WordsDetermined};

pub mod copy;
pub mod packed;

// The cells of the whole table.
pub const CELLS: usize = 2544;

// The octets that hold the whole table packed.
pub const PACKED_OCTETS: usize = 2624;

// The first cell behind the 16 phase rows.
const PHASES_END: usize = 608;

// The cells of a phase row.
const PHASE_CELLS: usize = 38;

// The phase options are the 20th cell of a phase row.
const PHASE_OPTIONS: usize = 19;

// The first cell behind the 64 vehicle detector rows, which follow the phase rows.
const DETECTORS_END: usize = 1248;

// The cells of a detector row.
const DETECTOR_CELLS: usize = 10;

// The delay is the 4th cell of a detector row.
const DETECTOR_DELAY: usize = 3;

// A write that the memory does not take.
#[derive(Clone, Copy, Debug, PartialEq, Eq)]
pub struct Refused;

pub trait ParameterMemory {
    // The values of the cells, by cell number.
    ghost cells: { Self → List ℕ };

    // What no operation ever changes: the lent references, and what they hold besides the cells.
    ghost kept: { Self → List ℕ };

    // What the memory relies on between its operations. It is asked by clause, since a value of a bound has no invariant, and a
    // ghost field has to be a proposition, which this need not be.
    ghost sound: { Self → Type 0 } = { λ _. Unit {0} };

    // How many cells there are.
    fn count(&self) -> usize
        requires sound { sound self.now }
        ensures value { result ≡ length (cells self.now) }
        ensures bounded { Bounded (cells self.now) };

    // The value of the cell `at`, if there is such a cell.
    fn read(&mut self, at: usize) -> Option<u16>
        requires sound { sound self.old }
        ensures sound { sound self.new }
        ensures value { result ≡ read_of (cells self.old) at }
        ensures bounded { slice_index (cells self.old) at ≤ top_of at }
        ensures same { cells self.new ≡ cells self.old }
        ensures kept { kept self.new ≡ kept self.old };

    // Makes `value` the value of the cell `at`, if there is such a cell and `value` is not above its top.
    fn write(&mut self, at: usize, value: u16) -> Result<(), Refused>
        requires sound { sound self.old }
        ensures sound { sound self.new }
        ensures test { is_ok result ≡ takes (cells self.old) at value }
        ensures after { cells self.new ≡ written (cells self.old) at value }
        ensures kept { kept self.new ≡ kept self.old };
}

// Whether the cell `at` is wide.
#[tactic(auto, unfolding(crate::specs::Top::wide))]
pub fn is_wide(at: usize) -> bool
    ensures { result ≡ wide at }
{
    if at < PHASES_END {
        at % PHASE_CELLS == PHASE_OPTIONS
    } else if at < DETECTORS_END {
        (at - PHASES_END) % DETECTOR_CELLS == DETECTOR_DELAY
    } else {
        false
    }
}

// The top of the cell `at`.
#[tactic(auto, using(crate::proofs::Facts::top_wide, crate::proofs::Facts::top_narrow))]
pub fn top_of(at: usize) -> u16
    ensures { result ≡ top_of at }
{
    if is_wide(at) { 65535 } else { 255 }
}

// One word to a cell, any number of words. A narrow cell is the low octet of its word, and a write keeps the high one.
#[derive(Drop)]
pub struct WordMemory<'a> {
    pub words: &'a mut [u16],
}

impl<'a> ParameterMemory for WordMemory<'a> {
    ghost cells = { λ m. word_cells m.words.now };

    ghost kept = { λ m. m.words.ghost_name ∷ word_highs m.words.now };

    #[tactic(auto, using(crate::proofs::Facts::word_facts))]
    fn count(&self) -> usize {
        self.words.len()
    }

    #[tactic(auto, using(crate::proofs::Facts::word_facts))]
    fn read(&mut self, at: usize) -> Option<u16> {
        // `get` was tried, and the proof did not close: behind its `?` no word is known.
        if at >= self.words.len() {
            return None;
        }
        let word = self.words[at];
        if is_wide(at) {
            Some(word)
        } else {
            let [_, low] = word.to_be_bytes();
            Some(u16::from(low))
        }
    }

    #[tactic(auto, using(crate::proofs::Facts::word_facts))]
    fn write(&mut self, at: usize, value: u16) -> Result<(), Refused> {
        // By index, since no item is known after a `get_mut`.
        if at >= self.words.len() || value > top_of(at) {
            return Err(Refused);
        }
        let word = self.words[at];
        if is_wide(at) {
            self.words[at] = value;
        } else {
            // By a sum: the low octet alone is then stored, where two octets put together are a word each time.
            let [high, _] = word.to_be_bytes();
            self.words[at] = u16::from(high) * 256 + value;
        }
        Ok(())
    }
}

// Words are known by their cells and what they hold besides: nothing of the lent words is left out of the two.
#[tactic(auto, using(crate::proofs::Facts::words_determined))]
pub fn words_are_cells_and_highs()
    ensures { WordsDetermined }
{}

#[cfg(test)]
mod tests;
