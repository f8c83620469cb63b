// Numbers and phase lists as octets: what octets mean, item by item, what is wrong with them, and which octets a
// value is written as.
#![tactic(auto)]

ghost use Rattle.std.specs.Prelude.{◌≡◌};
ghost use Rattle.values.specs.Reading.{place_in};

pub mod numbers;
pub mod phases;
pub mod reader;

// What is wrong with octets, and the offset of the item at fault.
#[derive(Clone, Copy, Debug, PartialEq, Eq)]
pub enum Fault {
    // a data type, ID, index or quantity that the table has not
    NotInTable(usize),
    // a count octet that is not the one that the quantities call for
    CountDiffers(usize),
    // a number or list octet with a value that is not allowed
    NotAllowed(usize),
    // the first octet too many
    Over(usize),
    // octets are missing
    Missing,
}

impl Fault {
    // The offset that names the fault: where octets are missing, the length of all octets.
    pub fn place(self, length: usize) -> usize
        ensures { result ≡ place_in length self }
    {
        match self {
            Fault::NotInTable(at) | Fault::CountDiffers(at) => at,
            Fault::NotAllowed(at) | Fault::Over(at) => at,
            Fault::Missing => length,
        }
    }
}
