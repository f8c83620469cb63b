ghost use Rattle.std.specs.Prelude.{◌≡◌, MatchOption, ◌≢◌};
ghost use Rattle.readings.specs.declared.cause.Cause.{Cause};
ghost use Rattle.readings.specs.Causes.{cause_number, cause_layer};

use crate::Fault;
use std::fmt;

// What a refusal finds fault with.
#[derive(Clone, Copy, Debug, PartialEq, Eq)]
pub enum Cause {
    Octets,
    Mode,
    Header,
    Count,
    Address,
    Value,
}

impl Fault {
    // The cause with this number and layer.
    pub fn cause(self) -> Option<Cause>
        ensures { MatchOption result ((c : Cause) → cause_number c ≡ self.number → cause_layer c ≢ self.layer) (λ c. (cause_number c ≡ self.number) × (cause_layer c ≡ self.layer)) }
    {
        match (self.number, self.layer) {
            (6, 1) => Some(Cause::Octets),
            (5, 2) => Some(Cause::Mode),
            (2, 3) => Some(Cause::Header),
            (6, 3) => Some(Cause::Count),
            (2, 4) => Some(Cause::Address),
            (3, 4) => Some(Cause::Value),
            _ => None,
        }
    }
}

impl fmt::Display for Cause {
    fn fmt<W: fmt::Write>(&self, f: &mut fmt::Formatter<W>) -> fmt::Result {
        f.write_str(match self {
            Cause::Octets => "the request's octets",
            Cause::Mode => "not taken in this mode",
            Cause::Header => "a block's header that the table has not",
            Cause::Count => "a count that is not that of the block's rows",
            Cause::Address => "an address that names no number",
            Cause::Value => "a value that is not allowed",
        })
    }
}

// Number, layer and place, and the cause if there is one.
impl fmt::Display for Fault {
    fn fmt<W: fmt::Write>(&self, f: &mut fmt::Formatter<W>) -> fmt::Result {
        let Fault {
            number,
            layer,
            place,
        } = *self;
        write!(f, "{number}, layer {layer}, place {place}")?;
        if let Some(cause) = self.cause() {
            write!(f, ": {cause}")?;
        }
        Ok(())
    }
}
