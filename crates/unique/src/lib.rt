// No code: that each public contract leaves one outcome for each input, as promises.
#![tactic(auto)]

ghost use Rattle.unique.specs.Parts.{Parts};
ghost use Rattle.unique.specs.Events.{Events};
ghost use Rattle.unique.specs.Lines.{Lines};
ghost use Rattle.unique.specs.Board.{Board};

// The machine, the hash, the manifest and the state.
pub fn parts_unique()
    ensures { Parts }
{}

// The eleven events and the running record.
pub fn events_unique()
    ensures { Events }
{}

// The line program.
pub fn lines_unique()
    ensures { Lines }
{}

// The functions for C.
pub fn board_unique()
    ensures { Board }
{}
