// The columns of all families, one after another: the one place that says which values a column takes.

// How a column's values are judged.
#[derive(Clone, Copy, Debug, PartialEq, Eq)]
pub enum Kind {
    // any number from least to greatest
    Number,
    // such a number, but never with bits 2 and 3 both set
    DetectorOptions,
    // such a number, or 254 (free) or 255 (flash)
    ActionPattern,
    // a list of at most 16 octets, each from least to greatest
    PhaseList,
}

// The width is in octets, of which a row's are added up, and a narrower type would ask more of callers; a list's width, least and greatest are those of one of its octets.
#[derive(Clone, Copy, Debug, PartialEq, Eq)]
pub struct Column {
    pub width: u8,
    pub least: u16,
    pub greatest: u16,
    pub kind: Kind,
}

// A number of one octet, with no limit of its own.
const NUMBER: Column = Column {
    width: 1,
    least: 0,
    greatest: 255,
    kind: Kind::Number,
};

pub const COLUMNS: [Column; 47] = [
    // Phase 1: walk
    NUMBER,
    // Phase 2: pedestrian clear
    NUMBER,
    // Phase 3: minimum green
    NUMBER,
    // Phase 4: passage
    NUMBER,
    // Phase 5: maximum 1
    NUMBER,
    // Phase 6: maximum 2
    NUMBER,
    // Phase 7: yellow change
    NUMBER,
    // Phase 8: red clear
    NUMBER,
    // Phase 9: red revert
    NUMBER,
    // Phase 10: added initial
    NUMBER,
    // Phase 11: maximum initial
    NUMBER,
    // Phase 12: time before reduction
    NUMBER,
    // Phase 13: cars before reduction
    NUMBER,
    // Phase 14: time to reduce
    NUMBER,
    // Phase 15: reduce by
    NUMBER,
    // Phase 16: minimum gap
    NUMBER,
    // Phase 17: dynamic maximum limit
    NUMBER,
    // Phase 18: dynamic maximum step
    NUMBER,
    // Phase 19: startup
    Column {
        least: 1,
        greatest: 6,
        ..NUMBER
    },
    // Phase 20: options
    Column {
        width: 2,
        greatest: 65535,
        ..NUMBER
    },
    // Phase 21: ring
    Column {
        greatest: 4,
        ..NUMBER
    },
    // Phase 22: concurrency
    Column {
        least: 1,
        greatest: 16,
        kind: Kind::PhaseList,
        ..NUMBER
    },
    // Vehicle detector 1: options
    Column {
        kind: Kind::DetectorOptions,
        ..NUMBER
    },
    // Vehicle detector 2: call phase
    Column {
        greatest: 16,
        ..NUMBER
    },
    // Vehicle detector 3: switch phase
    Column {
        greatest: 16,
        ..NUMBER
    },
    // Vehicle detector 4: delay
    Column {
        width: 2,
        greatest: 65535,
        ..NUMBER
    },
    // Vehicle detector 5: extend
    NUMBER,
    // Vehicle detector 6: queue limit
    NUMBER,
    // Vehicle detector 7: no activity
    NUMBER,
    // Vehicle detector 8: maximum presence
    NUMBER,
    // Vehicle detector 9: erratic counts
    NUMBER,
    // Vehicle detector 10: fail time
    NUMBER,
    // Pedestrian detector 1: call phase
    Column {
        greatest: 16,
        ..NUMBER
    },
    // Pedestrian detector 2: no activity
    NUMBER,
    // Pedestrian detector 3: maximum presence
    NUMBER,
    // Pedestrian detector 4: erratic counts
    NUMBER,
    // Pattern 1: cycle
    NUMBER,
    // Pattern 2: offset
    NUMBER,
    // Pattern 3: split number
    Column {
        greatest: 16,
        ..NUMBER
    },
    // Pattern 4: sequence number
    Column {
        greatest: 4,
        ..NUMBER
    },
    // Split 1: time
    NUMBER,
    // Split 2: mode
    Column {
        least: 1,
        greatest: 7,
        ..NUMBER
    },
    // Split 3: coordinated
    Column {
        greatest: 1,
        ..NUMBER
    },
    // Time base action 1: pattern
    Column {
        greatest: 32,
        kind: Kind::ActionPattern,
        ..NUMBER
    },
    // Time base action 2: auxiliary function
    Column {
        greatest: 15,
        ..NUMBER
    },
    // Time base action 3: special function
    NUMBER,
    // Sequence 1: phase list
    Column {
        least: 1,
        greatest: 16,
        kind: Kind::PhaseList,
        ..NUMBER
    },
];
