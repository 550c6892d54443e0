// The fields of a manifest: runs of pages and entries (document 01, "Manifest").
#![tactic(auto)]

ghost use Rattle.std.specs.Prelude.{◌≡◌, [], ◌∷◌};
ghost use Rattle.fields.specs.Fields.{run_places, entry_places};
ghost use Rattle.fields.specs.Rules.{is_code, is_param};

// The kind is a byte and no enum: C's struct monitor_run (host/monitor.h), where a caller may hand over any byte.
#[repr(C)]
#[derive(Clone, Copy)]
pub struct Run {
    pub kind: u8,
    pub count: u16,
    pub first: u32,
}

#[repr(C)]
#[derive(Clone, Copy)]
pub struct Entry {
    pub address: u32,
    pub input: u16,
    pub output: u16,
}

// r runs and e entries are in use, from the front on; the unused places are zero. C lays them out so (host/monitor.h), an array with a length beside. Those in
// use are `f.runs[..f.r]`: a method for them would ask the same bound, and say no more than the slice does.
#[repr(C)]
#[derive(Clone, Copy)]
pub struct Fields {
    pub r: usize,
    pub e: usize,
    pub runs: [Run; Fields::RUNS],
    pub entries: [Entry; Fields::ENTRIES],
}

impl Run {
    pub const CODE: u8 = 1;

    pub const PARAM: u8 = 4;

    // What an unused place holds.
    pub const NONE: Run = Run {
        kind: 0,
        count: 0,
        first: 0,
    };

    pub fn is_code(self) -> bool
        ensures { result ≡ is_code self }
    {
        self.kind == Run::CODE
    }

    pub fn is_param(self) -> bool
        ensures { result ≡ is_param self }
    {
        self.kind == Run::PARAM
    }
}

// What an unused place holds.
impl Entry {
    pub const NONE: Entry = Entry {
        address: 0,
        input: 0,
        output: 0,
    };
}

impl Fields {
    pub const RUNS: usize = 4;

    pub const ENTRIES: usize = 8;

    // No run and no entry: all zero.
    pub const NONE: Fields = Fields {
        r: 0,
        e: 0,
        runs: [Run::NONE; Fields::RUNS],
        entries: [Entry::NONE; Fields::ENTRIES],
    };

    // The constants are the definitions' numbers: neither moves without the other.
    pub fn places() -> [usize; 2]
        ensures { result ≡ run_places ∷ entry_places ∷ [] }
    {
        [Fields::RUNS, Fields::ENTRIES]
    }
}
