ghost use Rattle.std.specs.Prelude.{◌≡◌, ℕ, ◌<◌, MatchOption, MatchResult};
ghost use Rattle.memory.specs.Top.{cell_count};
ghost use Rattle.tables.specs.declared.place.Place.{Place};
ghost use Rattle.tables.specs.Places.{address_from, Names, NamesCell, OneCell, EveryNumberNamed};
ghost use Rattle.tables.specs.Allowed.{Stores, StoredFits};
ghost use Rattle.tables.specs.Writes.{Unstores};

use super::family::FamilyId;
use super::place::Place;
use super::work::StagedWrite;

// The address of a number, as a get or a set names it: any octets. `second` is 0 where the family has one index.
#[derive(Clone, Copy, Debug, PartialEq, Eq)]
pub struct Address {
    pub id: u8,
    pub column: u8,
    pub first: u8,
    pub second: u8,
}

// Why nothing is stored for a sent value.
#[derive(Clone, Copy, Debug, PartialEq, Eq)]
pub enum Unstored {
    // the address names no number column
    NoNumber,
    // the value is not allowed there
    NotAllowed,
}

impl From<[u8; 4]> for Address {
    ghost from_gives = { λ os a. a ≡ address_from os };

    fn from(octets: [u8; 4]) -> Address {
        let [id, column, first, second] = octets;
        Address {
            id,
            column,
            first,
            second,
        }
    }
}

impl Address {
    // Where the number that it names stands; none where it names no number column.
    pub fn place(self) -> Option<Place>
        ensures { MatchOption result ((p : Place) → Names self p → ⊥) (λ p. Names self p) }
    {
        let family = FamilyId::try_from(self.id).ok()?;
        let column = family.column(self.column)?;
        if column.kind.is_list() {
            return None;
        }
        let place = Place {
            family,
            first: self.first,
            second: self.second,
            column: self.column,
            octet: 0,
        };
        place.stands().then_some(place)
    }

    // The cell of that number.
    pub fn cell(self) -> Option<usize>
        ensures { MatchOption result ((n : ℕ) → NamesCell self n → ⊥) (λ n. NamesCell self n × (n < cell_count)) }
    {
        self.place()?.cell()
    }

    // The write that a sent value asks for.
    pub fn write_of(self, sent: u16) -> Result<StagedWrite, Unstored>
        ensures { MatchResult result (λ w. Stores self sent w.cell w.value) (λ e. Unstores self sent e) }
    {
        let place = self.place().ok_or(Unstored::NoNumber)?;
        let column = place.family.column(place.column).ok_or(Unstored::NoNumber)?;
        let cell = place.cell().ok_or(Unstored::NoNumber)?;
        let value = column.stored(sent).ok_or(Unstored::NotAllowed)?;
        Ok(StagedWrite {
            cell: cell as u16,
            value,
        })
    }
}

// What is stored fits its cell.
pub fn stored_values_fit()
    ensures { StoredFits }
{}

// An address names at most one cell.
#[tactic(auto, using(crate::proofs::PlaceFacts::one_cell_named))]
pub fn each_address_names_one_cell()
    ensures { OneCell }
{}

// Every number of the table can be named.
#[tactic(auto, using(crate::proofs::PlaceFacts::number_named))]
pub fn every_number_has_an_address()
    ensures { EveryNumberNamed }
{}
