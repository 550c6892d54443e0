// Events and answers (document 01, "Eleven events").
#![tactic(auto)]

use memory::Source;

// "An event is one of eleven kinds, each with its own numbers; payload bytes travel beside it."
#[derive(Clone, Copy)]
pub enum Event {
    Register {
        mark: u64,
    },
    Unregister {
        mark: u64,
        slot: usize,
    },
    Call {
        mark: u64,
        address: usize,
        input: usize,
        output: usize,
    },
    Return,
    Jump {
        address: usize,
    },
    Read {
        address: usize,
        length: usize,
    },
    Write {
        address: usize,
    },
    DeviceRead {
        address: usize,
        length: usize,
    },
    DeviceWrite {
        address: usize,
    },
    Extend {
        index: usize,
        source: Source,
        address: usize,
        length: usize,
    },
    PcrRead {
        index: usize,
    },
}

// Why something is refused: document 01's eleven numbers, in their order ("Numbers given for no").
#[derive(Clone, Copy, PartialEq, Eq)]
pub enum Refusal {
    // "state not well formed"
    NotWellFormed = 1,
    // "event not allowed in this mode"
    NotInThisMode = 2,
    // "manifest or its fields break a rule"
    RuleBroken = 3,
    // "not a range, jump outside memory, extend payload over 4,096, or P or M out of range"
    OutOfRange = 4,
    // "a page may not be reached that way"
    NotReached = 5,
    // "a manifest names a page that isn't open (also from P−M up)"
    NotOpen = 6,
    // "all eight slots registered"
    NoFreeSlot = 7,
    // "no such entry or slot under that mark"
    NotFound = 8,
    // "answer buffer too short"
    BufferShort = 9,
    // "µPCR index above 7"
    NoSuchPcr = 10,
    // "program only: line not readable"
    Unreadable = 11,
}

impl From<Refusal> for u8 {
    ghost use Rattle.std.specs.Prelude.{◌≡◌};
    ghost use Rattle.events.specs.Refusals.{number_of};

    ghost from_gives = { λ r n. n ≡ number_of r };

    fn from(r: Refusal) -> u8 {
        r as u8
    }
}

#[derive(Clone, Copy)]
pub enum Answer {
    Done,
    Slot(usize),
    Entered(usize),
    Left(usize),
    Terminated(usize),
    Filled(usize),
    Refused(Refusal),
}
