// The line program: standard input to standard output, on P=8, M=1, zeroed memory and a 4,096-byte answer buffer (document 01, "The line program").
// What the bytes that are read make of state, memory, answer buffer and output is desk::serve's contract; here they are only read and written.
#![tactic(auto)]

ghost use Rattle.std.specs.Prelude.{◌≤◌, ◌<◌, length};
ghost use Rattle.gather.specs.Lines.{most_kept};

use geometry::Geometry;
use std::io;
use std::io::{Read, Write};

// Of what is read or written at a time.
const BLOCK: usize = 65536;

// Of an answer.
const ANSWER: usize = 4096;

// The part of the block that waits to be heard, and whether there may be more to read: both are known always.
#[derive(Clone, Copy)]
struct Part {
    at: usize,
    end: usize,
    more: bool,
}

// The begin of a line that has not ended goes to the block's front, and what is read next behind it. A read that fails is the input's end.
fn refill<R: Read>(input: &mut R, block: &mut [u8], part: Part) -> Part
    requires { (part.at ≤ part.end) × (part.end ≤ length block.old) × (most_kept < length block.old) }
    ensures { (result.at ≤ result.end) × (result.end ≤ length block.old) }
{
    let kept = gather::carry(block, part.at, part.end);
    let n = input.read(&mut block[kept..]).unwrap_or(0);
    let text = gather::received(block, kept, n);
    Part {
        at: 0,
        end: text.end,
        more: text.more,
    }
}

// The memory of the eight pages that it runs on.
const MEMORY: usize = 8 * Geometry::PAGE;

// Lines are heard and answers written to the end of the input, or to the first write that fails.
fn run<R: Read, W: Write>(input: &mut R, output: &mut W) -> io::Result<()> {
    let mut state = start::start(8, 1).state;
    let mut block = [0u8; BLOCK];
    let mut payload = [0u8; lines::PAYLOAD_ROOM];
    let mut memory = [0u8; MEMORY];
    let mut buffer = [0u8; ANSWER];
    let mut out = [0u8; BLOCK];
    let mut part = Part {
        at: 0,
        end: 0,
        more: true,
    };
    // A proved loop has to end: no input has so many blocks.
    for _ in 0..u64::MAX {
        let text = &block[part.at..part.end];
        let heard = desk::serve(
            text,
            state,
            &mut payload,
            &mut memory,
            &mut buffer,
            &mut out,
        );
        state = heard.state;
        part.at += heard.at;
        output.write_all(&out[..heard.used])?;
        if heard.used == 0 {
            if !part.more {
                break;
            }
            part = refill(input, &mut block, part);
        }
    }
    Ok(())
}

// A write that fails ends the program, as the end of the input does.
fn main(rt: HostRuntime) {
    let _ = run(&mut rt.stdin(), &mut rt.stdout());
}
