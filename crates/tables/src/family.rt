ghost use Rattle.std.specs.Prelude.{◌≡◌, MatchResult, ◌≢◌};
ghost use Rattle.tables.specs.declared.family.FamilyId.{FamilyId};
ghost use Rattle.tables.specs.Families.{shape_of};

// The families of parameters, by their data ID.
#[derive(Clone, Copy, Debug, PartialEq, Eq)]
pub enum FamilyId {
    Phase,
    VehicleDetector,
    PedestrianDetector,
    Pattern,
    Split,
    Action,
    Sequence,
}

// What a family's rows and columns are, and where they stand.
#[derive(Clone, Copy, Debug, PartialEq, Eq)]
pub struct Shape {
    // data ID
    pub id: u8,
    // the last value of the first index
    pub last_first: u8,
    // the last value of the second index, 0 where the family has one index: an address then has a 0 there
    pub last_second: u8,
    // how many columns come before in the table of all columns
    pub columns_before: usize,
    // how many columns it has
    pub columns: u8,
    // how many cells come before in the table
    pub cells_before: usize,
    // how many cells a row takes
    pub row_cells: usize,
}

// A data ID that no family has.
#[derive(Clone, Copy, Debug, PartialEq, Eq)]
pub struct UnknownId;

// The family with a data ID.
impl TryFrom<u8> for FamilyId {
    type Error = UnknownId;

    ghost try_from_gives = { λ id r. MatchResult r (λ f. (shape_of f).id ≡ id) (λ _. (f : FamilyId) → (shape_of f).id ≢ id) };

    fn try_from(id: u8) -> Result<FamilyId, UnknownId> {
        match id {
            0 => Ok(FamilyId::Phase),
            1 => Ok(FamilyId::VehicleDetector),
            2 => Ok(FamilyId::PedestrianDetector),
            3 => Ok(FamilyId::Pattern),
            4 => Ok(FamilyId::Split),
            5 => Ok(FamilyId::Action),
            7 => Ok(FamilyId::Sequence),
            _ => Err(UnknownId),
        }
    }
}

impl FamilyId {
    pub fn shape(self) -> Shape
        ensures { result ≡ shape_of self }
    {
        match self {
            FamilyId::Phase => Shape {
                id: 0,
                last_first: 16,
                last_second: 0,
                columns_before: 0,
                columns: 22,
                cells_before: 0,
                row_cells: 38,
            },
            FamilyId::VehicleDetector => Shape {
                id: 1,
                last_first: 64,
                last_second: 0,
                columns_before: 22,
                columns: 10,
                cells_before: 608,
                row_cells: 10,
            },
            FamilyId::PedestrianDetector => Shape {
                id: 2,
                last_first: 8,
                last_second: 0,
                columns_before: 32,
                columns: 4,
                cells_before: 1248,
                row_cells: 4,
            },
            FamilyId::Pattern => Shape {
                id: 3,
                last_first: 32,
                last_second: 0,
                columns_before: 36,
                columns: 4,
                cells_before: 1280,
                row_cells: 4,
            },
            FamilyId::Split => Shape {
                id: 4,
                last_first: 16,
                last_second: 16,
                columns_before: 40,
                columns: 3,
                cells_before: 1408,
                row_cells: 3,
            },
            FamilyId::Action => Shape {
                id: 5,
                last_first: 32,
                last_second: 0,
                columns_before: 43,
                columns: 3,
                cells_before: 2176,
                row_cells: 3,
            },
            FamilyId::Sequence => Shape {
                id: 7,
                last_first: 4,
                last_second: 4,
                columns_before: 46,
                columns: 1,
                cells_before: 2272,
                row_cells: 17,
            },
        }
    }
}
