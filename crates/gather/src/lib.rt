// Lines out of the text that is read: only byte 10 ends a line, and of one that has not ended no more is kept than says that it is too long (document 01, "The line program").
#![tactic(auto)]

ghost use Rattle.std.specs.Prelude.{◌≡◌, ◌+◌, ◌-◌, ◌≤◌, ◌<◌, length};
ghost use Rattle.std.proofs.lemmas.List.Edits.{sets};
ghost use Rattle.lists.specs.Bytes.{part};
ghost use Rattle.gather.specs.Lines.{line_end, most_kept, clipped, received_of, with_newline};
ghost use Rattle.gather.specs.Cuts.{Cuts, LastLines};

const NEWLINE: u8 = b'\n';

// The most characters that are kept of a line that has not ended: one more than the most that are read.
pub const MOST_KEPT: usize = 2001;

// The place of the first newline, or the text's length, which ends the line that has not ended.
pub fn line_end(text: &[u8]) -> usize
    ensures { result ≡ line_end text.now }
{
    numerals::place_of(text, NEWLINE)
}

// What stands from one place of a block to another, the begin of a line that has not ended, goes to the block's front; how much of it is kept.
pub fn carry(block: &mut [u8], from: usize, to: usize) -> usize
    requires { (from ≤ to) × (to ≤ length block.old) }
    ensures value { (result ≡ clipped (to - from)) × (block.new ≡ sets block.old 0 (part block.old from result)) }
    ensures upper_bound { result ≤ most_kept }
{
    let n = (to - from).min(MOST_KEPT);
    memory::move_bytes(block, from, 0, n);
    n
}

// Where the text in a block ends, and whether there may be more of it: both are known always, so the flag is no Option's.
#[derive(Clone, Copy)]
pub struct Text {
    pub end: usize,
    pub more: bool,
}

// n characters were read behind those that are kept. None is the input's end, and a line that has begun then gets its newline.
pub fn received(block: &mut [u8], kept: usize, n: usize) -> Text
    requires { (kept + n ≤ length block.old) × (kept < length block.old) }
    ensures value { (result ≡ received_of kept n) × (block.new ≡ with_newline block.old kept n) }
    ensures end_in_bounds { result.end ≤ length block.old }
{
    if 0 < n {
        return Text {
            end: kept + n,
            more: true,
        };
    }
    if 0 < kept {
        block[kept] = NEWLINE;
        return Text {
            end: kept + 1,
            more: false,
        };
    }
    Text {
        end: 0,
        more: false,
    }
}

// Blocks may be cut anywhere.
pub fn cuts()
    ensures { Cuts }
{}

// The last line needs no newline.
pub fn last_lines()
    ensures { LastLines }
{}
