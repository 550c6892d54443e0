// What is done to lent bytes: pages zeroed, bytes moved, put and given, and the part of one of two lent slices.
#![tactic(auto)]

ghost use Rattle.std.specs.Prelude.{◌≡◌, [], ◌∷◌, ◌+◌, ◌≤◌, length};
ghost use Rattle.std.proofs.lemmas.List.Edits.{sets};
ghost use Rattle.lists.specs.Bytes.{part, zeros, counted, wipe};
ghost use Rattle.geometry.specs.Geometry.{page_size, start_of};
ghost use Rattle.memory.specs.Source.{chosen_of, InRange};

use geometry::Geometry;

// n bytes from `at` on become zero.
fn zero_bytes(memory: &mut [u8], at: usize, n: usize)
    requires { at + n ≤ length memory.old }
    ensures { memory.new ≡ sets memory.old at (zeros n) }
{
    memory[at..at + n].fill(0);
}

// Every byte of `count` pages, from page `first` on, becomes zero.
pub fn zero_run(memory: &mut [u8], first: usize, count: usize)
    requires { start_of (first + count) ≤ length memory.old }
    ensures { memory.new ≡ wipe page_size memory.old (counted first count) }
{
    zero_bytes(memory, first * Geometry::PAGE, count * Geometry::PAGE);
}

// Every byte of one page becomes zero.
pub fn zero_page(memory: &mut [u8], page: usize)
    requires { start_of (page + 1) ≤ length memory.old }
    ensures { memory.new ≡ wipe page_size memory.old (page ∷ []) }
{
    zero_bytes(memory, page * Geometry::PAGE, Geometry::PAGE);
}

// n bytes, at most a page's worth, go from one place of memory to another, also where the two overlap. They go by way of an array, of which LLVM makes one
// memmove and no array: the library's copy_within proves too, but is a loop byte by byte, 2.86 times as slow as memmove (docs/SPEED.md asks at most 1.2).
pub fn move_bytes(memory: &mut [u8], from: usize, to: usize, n: usize)
    requires { (from + n ≤ length memory.old) × ((to + n ≤ length memory.old) × (n ≤ page_size)) }
    ensures { memory.new ≡ sets memory.old to (part memory.old from n) }
{
    let mut held = [0u8; Geometry::PAGE];
    held[..n].copy_from_slice(&memory[from..from + n]);
    memory[to..to + n].copy_from_slice(&held[..n]);
}

// All bytes of a payload go to a place of memory.
pub fn put_bytes(memory: &mut [u8], at: usize, payload: &[u8])
    requires { at + length payload.now ≤ length memory.old }
    ensures { memory.new ≡ sets memory.old at payload.now }
{
    memory[at..at + payload.len()].copy_from_slice(payload);
}

// n bytes of memory go to the front of the answer buffer; the rest of it stays.
pub fn give_bytes(memory: &[u8], at: usize, n: usize, buffer: &mut [u8])
    requires { (at + n ≤ length memory.now) × (n ≤ length buffer.old) }
    ensures { buffer.new ≡ sets buffer.old 0 (part memory.now at n) }
{
    put_bytes(buffer, 0, &memory[at..at + n]);
}

// Where the bytes of an extend lie.
#[derive(Clone, Copy)]
pub enum Source {
    Payload,
    Memory,
}

// The bytes that a source names, with no copy: all of the payload, or n bytes of memory. Of two lent slices, the form that document 01 names.
pub fn chosen<'a>(
    payload: &'a [u8],
    memory: &'a [u8],
    source: Source,
    at: usize,
    n: usize,
) -> &'a [u8]
    requires { InRange memory.now source at n }
    ensures { result.now ≡ chosen_of payload.now memory.now source at n }
{
    match source {
        Source::Payload => payload,
        Source::Memory => &memory[at..at + n],
    }
}
