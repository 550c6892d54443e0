// Runs SHA-1 on what standard input holds, and counts the digests that differ from those expected. tests/vectors.sh writes such input.
//
// A command is a header of 32 bytes, which a part of the message may follow:
//   byte 0       the command, a letter
//   bytes 2, 3   how many bytes the part has, most first
//   bytes 12 on  a digest, or the name of a line, with spaces
#![tactic(auto)]

use geometry::Geometry;
use sha_1::{Digest, Hashing};
use std::io::{Read, Write};

const HEADER: usize = 32;

const NAMED: usize = HEADER - Geometry::DIGEST;

const MOST: usize = 65536;

#[derive(Clone, Copy)]
struct Run {
    hashing: Hashing,
    digest: Digest,
    count: u64,
    wrong: u64,
}

// Reads until the buffer is full; false where the input ends before that, or a read fails. Not by `read_exact`, which tries again where a signal broke off a read.
fn filled<R: Read>(input: &mut R, buf: &mut [u8]) -> bool {
    let mut done = 0;
    while done < buf.len() {
        let n = input.read(&mut buf[done..]).unwrap_or(0);
        if n == 0 {
            return false;
        }
        done += n;
    }
    true
}

// The next header; none where the input ends before it is whole, or reading fails.
fn next_header<R: Read>(input: &mut R) -> Option<[u8; HEADER]> {
    let mut header = [0u8; HEADER];
    filled(input, &mut header).then_some(header)
}

fn digest_in(header: &[u8; HEADER]) -> Digest {
    let mut bytes = [0u8; Geometry::DIGEST];
    bytes.copy_from_slice(&header[NAMED..]);
    Digest { bytes }
}

// One checkpoint of NIST's Monte Carlo test: each message is the last three digests.
fn thousand(seed: Digest) -> Digest {
    let seed = seed.bytes;
    let mut last = [seed; 3];
    for _ in 0..1000 {
        let digest = sha_1::hash(last.as_flattened()).bytes;
        last.rotate_left(1);
        last[2] = digest;
    }
    Digest { bytes: last[2] }
}

impl Run {
    fn new() -> Run {
        Run {
            hashing: sha_1::start(),
            digest: Digest {
                bytes: [0; Geometry::DIGEST],
            },
            count: 0,
            wrong: 0,
        }
    }

    fn compare(&mut self, expected: Digest) {
        self.count = self.count.wrapping_add(1);
        if self.digest != expected {
            self.wrong = self.wrong.wrapping_add(1);
        }
    }

    // Writes the counts behind their name, and begins them anew.
    fn line<W: Write>(&mut self, output: &mut W, name: Digest) {
        let Run { count, wrong, .. } = *self;
        output.write_all(&name.bytes).is_ok();
        writeln!(output, "{count} digests, {wrong} differ").is_ok();
        self.count = 0;
        self.wrong = 0;
    }

    // A command that a part of n bytes follows; where the input ends before that, the rest of the part is zeros.
    fn part<R: Read>(&mut self, input: &mut R, command: u8, n: u16) {
        let mut space = [0u8; MOST];
        let part = &mut space[..usize::from(n)];
        filled(input, part);
        match command {
            b't' => self.hashing = sha_1::taken(self.hashing, part),
            b'f' => {
                self.digest = sha_1::finished(self.hashing, part);
                self.hashing = sha_1::start();
            }
            _ => self.digest = sha_1::hash(part),
        }
    }

    fn step<R: Read, W: Write>(&mut self, input: &mut R, output: &mut W, header: [u8; HEADER]) {
        let digest = digest_in(&header);
        match header[0] {
            b's' => self.digest = digest,
            b'p' => self.digest = sha_1::hash_pair(self.digest, digest),
            b'm' => self.digest = thousand(self.digest),
            b'c' => self.compare(digest),
            b'l' => self.line(output, digest),
            command => self.part(input, command, u16::from_be_bytes([header[2], header[3]])),
        }
    }
}

// A proved loop has to end, and nothing says that the input does: no run uses up so many turns.
fn main(rt: HostRuntime) {
    let mut input = rt.stdin();
    let mut output = rt.stdout();
    let mut run = Run::new();
    for _ in 0..u64::MAX {
        let Some(header) = next_header(&mut input) else {
            break;
        };
        run.step(&mut input, &mut output, header);
    }
}
