ghost use Rattle.std.specs.Prelude.{◌≡◌};
ghost use Rattle.unit.specs.Operations.{Decodes, takes_mode};

use transfers::refusal::Refusal;

// What a request asks for, by its first octet.
#[derive(Clone, Copy, Debug, PartialEq, Eq)]
pub enum Operation {
    Get,
    Set,
    GetBlock,
    SetBlock,
    Open,
    Abandon,
}

impl TryFrom<u8> for Operation {
    type Error = Refusal;

    ghost try_from_gives = { Decodes };

    fn try_from(octet: u8) -> Result<Operation, Refusal> {
        match octet {
            1 => Ok(Operation::Get),
            2 => Ok(Operation::Set),
            3 => Ok(Operation::GetBlock),
            4 => Ok(Operation::SetBlock),
            5 => Ok(Operation::Open),
            9 => Ok(Operation::Abandon),
            _ => Err(Refusal::UnknownOperation),
        }
    }
}

impl Operation {
    // Whether it is taken in this mode, which C may hand in as any octet.
    pub fn takes_mode(self, mode: u8) -> bool
        ensures { result ≡ takes_mode self mode }
    {
        match self {
            Operation::Get | Operation::GetBlock => mode <= 2,
            Operation::Set | Operation::SetBlock => mode == 1,
            Operation::Open => mode == 0,
            Operation::Abandon => matches!(mode, 1 | 2),
        }
    }
}
