// Reads manifests from standard input, each in 256 bytes: its length, itself, and zeros. For each it writes the reader's number, and behind 0 the 112 bytes of a
// zeroed buffer to which the fields were written again. tests/manifests.sh compares both with a second reader.
#![tactic(auto)]

use fields::Fields;
use std::io::{Read, Write};

const LONGEST: usize = manifest::ITEM * (Fields::RUNS + Fields::ENTRIES) + manifest::TRAILER;

// A manifest, behind a byte with its length.
const GIVEN: usize = 256;

// Reads until the buffer is full; false where the input ends before that, or a read fails. Not by `read_exact`, which tries again where a signal broke off a read.
fn filled<R: Read>(input: &mut R, buf: &mut [u8]) -> bool {
    let mut done = 0;
    while done < buf.len() {
        let n = input.read(&mut buf[done..]).unwrap_or(0);
        if n == 0 {
            return false;
        }
        done += n;
    }
    true
}

fn again<W: Write>(output: &mut W, reading: manifest::Reading) {
    let fields = reading.fields;
    let mut buffer = [0u8; LONGEST];
    let _ = manifest::write(fields, &mut buffer);
    output.write_all(&buffer).is_ok();
}

// Reads one manifest and answers it; false where the input ends before that, or reading fails.
fn one<R: Read, W: Write>(input: &mut R, output: &mut W) -> bool {
    let mut given = [0u8; GIVEN];
    if !filled(input, &mut given) {
        return false;
    }
    let n = usize::from(given[0]);
    let reading = manifest::read(&given[1..1 + n]);
    output.write_all(&[reading.refusal]).is_ok();
    if reading.refusal == 0 {
        again(output, reading);
    }
    true
}

// A proved loop has to end, and nothing says that the input does: no run uses up so many turns.
fn main(rt: HostRuntime) {
    let mut input = rt.stdin();
    let mut output = rt.stdout();
    for _ in 0..u64::MAX {
        if !one(&mut input, &mut output) {
            break;
        }
    }
}
