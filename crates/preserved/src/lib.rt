// No code: well-formedness is kept, as a promise.
#![tactic(auto)]

ghost use Rattle.preserved.specs.Preserved.{StaysWellFormed};

// Every event takes a well-formed state to a well-formed state, with its memory.
pub fn stays_well_formed()
    ensures { StaysWellFormed }
{}
