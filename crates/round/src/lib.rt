// The manifest's round trips. Each function pins one theorem about the definitions: without its proof this crate is not proved.
#![tactic(auto)]

ghost use Rattle.round.specs.Round.{ReadThenWritten, WrittenThenRead, AcceptsExactly, OneSpelling, Lengths};

// An accepted manifest, read and written again, gives the same bytes.
pub fn read_then_written()
    ensures { ReadThenWritten }
{}

// Fields that keep the rules, written and read again, are the same fields.
pub fn written_then_read()
    ensures { WrittenThenRead }
{}

// The reader accepts exactly the encodings of fields that keep the rules.
pub fn accepts_exactly()
    ensures { AcceptsExactly }
{}

// No second spelling of a manifest exists.
pub fn one_spelling()
    ensures { OneSpelling }
{}

// Lengths are 8(r+e)+16, 40 to 112.
pub fn lengths()
    ensures { Lengths }
{}
