// The records that the unit's work lists hold.

// A value that a request has been found to send, kept until the whole request is found good.
#[derive(Clone, Copy, Debug, PartialEq, Eq)]
pub struct StagedWrite {
    pub cell: u16,
    pub value: u16,
}

// A rule that a table breaks, and where: a place of two octets. By numbers: a list that is lent may hold any,
// and a narrower type would ask more of callers.
#[derive(Clone, Copy, Debug, PartialEq, Eq)]
pub struct Finding {
    pub rule: u8,
    pub high: u8,
    pub low: u8,
}
