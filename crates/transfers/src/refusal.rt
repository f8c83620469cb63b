ghost use Rattle.std.specs.Prelude.{◌≡◌};
ghost use Rattle.transfers.specs.Refusals.{number_of, layer_of, place_of};
ghost use Rattle.transfers.specs.declared.refusal.Refusal.TheVariants.{Room};

use lists::list::Full;

// Why a call was turned away.
#[derive(Clone, Copy, Debug, PartialEq, Eq)]
pub enum Refusal {
    // a memory handed in has not the table's count of cells
    MemoryCount,
    // reply memory or a work list is too short
    Room,
    // a request of no octets
    EmptyRequest,
    // an operation that the unit has not
    UnknownOperation,
    // a mode that the operation is not taken in
    Mode,
    // a count of items outside 1 to 32
    ItemCount,
    // octets are missing: the request's length
    Missing(u16),
    // octets are over: the offset of the first one
    Over(u16),
    // an address that names no number column: the offset of its first octet
    NoNumber(u16),
    // a value that is not allowed: the offset of its first octet
    NotAllowed(u16),
    // a block's data type, ID, index or quantity that the table has not: its offset
    NotInTable(u16),
    // a block's count octet that is not the one that its quantities call for: its offset
    CountDiffers(u16),
}

impl Refusal {
    pub fn number(self) -> u8
        ensures { result ≡ number_of self }
    {
        match self {
            Refusal::MemoryCount => 9,
            Refusal::Room => 1,
            Refusal::EmptyRequest | Refusal::UnknownOperation => 6,
            Refusal::Mode => 5,
            Refusal::ItemCount | Refusal::Missing(_) | Refusal::Over(_) => 6,
            Refusal::NoNumber(_) => 2,
            Refusal::NotAllowed(_) => 3,
            Refusal::NotInTable(_) => 2,
            Refusal::CountDiffers(_) => 6,
        }
    }

    // Where in the request's layers the fault lies: 1 octets, 2 mode, 3 a block's header, 4 values; 0, which no reply shows,
    // where there is none.
    pub fn layer(self) -> u8
        ensures { result ≡ layer_of self }
    {
        match self {
            Refusal::MemoryCount | Refusal::Room => 0,
            Refusal::EmptyRequest | Refusal::UnknownOperation => 1,
            Refusal::Mode => 2,
            Refusal::ItemCount | Refusal::Missing(_) | Refusal::Over(_) => 1,
            Refusal::NotInTable(_) | Refusal::CountDiffers(_) => 3,
            Refusal::NoNumber(_) | Refusal::NotAllowed(_) => 4,
        }
    }

    // The offset of the octet at fault, or the request's length where octets are missing.
    pub fn place(self) -> u16
        ensures { result ≡ place_of self }
    {
        match self {
            Refusal::MemoryCount | Refusal::Room => 0,
            Refusal::EmptyRequest | Refusal::UnknownOperation | Refusal::Mode => 0,
            Refusal::ItemCount => 1,
            Refusal::Missing(length) => length,
            Refusal::Over(at) | Refusal::NoNumber(at) | Refusal::NotAllowed(at) => at,
            Refusal::NotInTable(at) | Refusal::CountDiffers(at) => at,
        }
    }
}

// A work list that is full has not the room that a call needs.
impl From<Full> for Refusal {
    ghost from_gives = { λ _ e. e ≡ Room };

    fn from(_full: Full) -> Refusal {
        Self::Room
    }
}
