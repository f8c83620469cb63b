ghost use Rattle.std.specs.Prelude.{◌≡◌, ℕ, ◌+◌, ◌-◌, ◌*◌, ◌<◌, ◌≤◌, min, ◌⊎◌, Decides, MatchOption};
ghost use Rattle.memory.specs.Top.{cell_count};
ghost use Rattle.tables.specs.Families.{shape_of, column_of, cells_of, rows_of, cells_end};
ghost use Rattle.tables.specs.Places.{Stands, cell_of, OnePlace, TopsFollowWidths};

use super::columns::{COLUMNS, Column};
use super::family::FamilyId;
use memory::CELLS;

// Where a cell stands. `second` is 0 where the family has one index, as in an address; `octet` is 0 for a number and for a list's
// length, and 1 to 16 for the octets of a list.
#[derive(Clone, Copy, Debug, PartialEq, Eq)]
pub struct Place {
    pub family: FamilyId,
    pub first: u8,
    pub second: u8,
    pub column: u8,
    pub octet: u8,
}

impl Column {
    // How many cells a value of the column takes.
    pub fn cells(self) -> u8
        ensures { result ≡ cells_of self }
    {
        if self.kind.is_list() { 17 } else { 1 }
    }
}

// The table of columns where it stands once, and is not made again for each look-up.
static STORED: [Column; 47] = COLUMNS;

impl FamilyId {
    // The family's column of this number, counted from 1.
    pub fn column(self, number: u8) -> Option<Column>
        ensures { MatchOption result ((number < 1) ⊎ ((shape_of self).columns < number)) (λ c. (1 ≤ number) × (number ≤ (shape_of self).columns) × (c ≡ column_of self number)) }
    {
        let shape = self.shape();
        if !(1..=shape.columns).contains(&number) {
            return None;
        }
        Some(STORED[shape.columns_before + usize::from(number - 1)])
    }
}

impl Place {
    // Whether the table has this place.
    pub fn stands(self) -> bool
        ensures { Decides result (Stands self) }
    {
        let shape = self.family.shape();
        let Some(column) = self.family.column(self.column) else {
            return false;
        };
        (1..=shape.last_first).contains(&self.first)
            && (shape.last_second.min(1)..=shape.last_second).contains(&self.second)
            && self.octet < column.cells()
    }

    // The number of its cell.
    #[tactic(auto, using(crate::proofs::PlaceFacts::cell_facts))]
    pub fn cell(self) -> Option<usize>
        ensures { MatchOption result (Stands self → ⊥) (λ n. Stands self × (n ≡ cell_of self) × (n < cell_count)) }
    {
        if !self.stands() {
            return None;
        }
        let shape = self.family.shape();
        let rows = usize::from(self.second.saturating_sub(1)) * usize::from(shape.last_first)
            + usize::from(self.first - 1);
        Some(
            shape.cells_before
                + rows * shape.row_cells
                + usize::from(self.column - 1)
                + usize::from(self.octet),
        )
    }
}

// The family that has this cell.
fn family_with(cell: usize) -> Option<FamilyId>
    ensures { MatchOption result (cell_count ≤ cell) (λ f. ((shape_of f).cells_before ≤ cell) × (cell < cells_end f)) }
{
    match cell {
        ..608 => Some(FamilyId::Phase),
        ..1248 => Some(FamilyId::VehicleDetector),
        ..1280 => Some(FamilyId::PedestrianDetector),
        ..1408 => Some(FamilyId::Pattern),
        ..2176 => Some(FamilyId::Split),
        ..2272 => Some(FamilyId::Action),
        ..CELLS => Some(FamilyId::Sequence),
        _ => None,
    }
}

// The indices of a row. `second` is 0 where the family has one index: no `Option`, which is no plainer, since an address has
// a 0 there too.
#[derive(Clone, Copy, Debug, PartialEq, Eq)]
pub struct Indices {
    pub first: u8,
    pub second: u8,
}

// The indices of a family's row, counted from 0.
fn indices_of(family: FamilyId, row: usize) -> Indices
    requires { row < rows_of family }
    ensures first { (1 ≤ result.first) × (result.first ≤ (shape_of family).last_first) }
    ensures second { (min 1 (shape_of family).last_second ≤ result.second) × (result.second ≤ (shape_of family).last_second) }
    ensures row { (result.second - 1) * (shape_of family).last_first + (result.first - 1) ≡ row }
{
    let shape = family.shape();
    if shape.last_second == 0 {
        return Indices {
            first: (row + 1) as u8,
            second: 0,
        };
    }
    let last = usize::from(shape.last_first);
    Indices {
        first: (row % last + 1) as u8,
        second: (row / last + 1) as u8,
    }
}

#[derive(Clone, Copy, Debug, PartialEq, Eq)]
struct InRow {
    column: u8,
    octet: u8,
}

// The column and octet of a cell of a family's row, counted from 0.
fn in_row(family: FamilyId, at: usize) -> InRow
    requires { at < (shape_of family).row_cells }
    ensures column { (1 ≤ result.column) × (result.column ≤ (shape_of family).columns) }
    ensures octet { result.octet < cells_of (column_of family result.column) }
    ensures at { (result.column - 1) + result.octet ≡ at }
{
    let last = usize::from(family.shape().columns);
    if at < last {
        return InRow {
            column: (at + 1) as u8,
            octet: 0,
        };
    }
    InRow {
        column: last as u8,
        octet: (at + 1 - last) as u8,
    }
}

// Where the cell of this number stands.
#[tactic(auto, using(crate::proofs::PlaceFacts::cell_facts))]
pub fn place_of(cell: usize) -> Option<Place>
    ensures { MatchOption result (cell_count ≤ cell) (λ p. Stands p × (cell_of p ≡ cell)) }
{
    let family = family_with(cell)?;
    let shape = family.shape();
    let from = cell - shape.cells_before;
    let Indices { first, second } = indices_of(family, from / shape.row_cells);
    let InRow { column, octet } = in_row(family, from % shape.row_cells);
    Some(Place {
        family,
        first,
        second,
        column,
        octet,
    })
}

// No two places have the same cell.
pub fn each_cell_has_one_place()
    ensures { OnePlace }
{}

// The memories' tops are those of the columns' widths.
#[tactic(auto, using(crate::proofs::WidthFacts::tops_by_width))]
pub fn tops_follow_widths()
    ensures { TopsFollowWidths }
{}
