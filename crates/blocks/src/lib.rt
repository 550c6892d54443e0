#![tactic(auto)]

ghost use Rattle.std.specs.Prelude.{◌≡◌, ◌+◌, ◌-◌, ◌*◌, ◌≤◌, ◌<◌, length, take};
ghost use Rattle.lists.specs.Numbers.{big_at};
ghost use Rattle.blocks.specs.Blocks.{block_size, word_size, length_size, gap};
ghost use Rattle.blocks.specs.Tail as Tails;

// The bytes of a block, of a word and of the length that ends a message.
pub const BLOCK: usize = 64;

pub const WORD: usize = 4;

const LENGTH: usize = 8;

// The big-endian word of four bytes. LLVM makes one load and a byte swap of it.
pub fn word(p: &[u8], at: usize) -> u32
    requires { at + word_size ≤ length p.now }
    ensures { result ≡ big_at word_size p.now at }
{
    u32::from_be_bytes([p[at], p[at + 1], p[at + 2], p[at + 3]])
}

// The one or two blocks that end a message: the first count bytes, and zeros.
#[derive(Clone, Copy)]
pub struct Tail {
    pub bytes: [u8; 2 * BLOCK],
    pub count: usize,
}

impl Tail {
    // The bytes that count.
    pub fn as_slice(&self) -> &[u8]
        requires { self.now.count ≤ 2 * block_size }
        ensures { result.now ≡ take self.now.count self.now.bytes }
    {
        &self.bytes[..self.count]
    }
}

// How many bytes end a message with left bytes after its last whole block.
fn room(left: usize) -> usize
    requires { left < block_size }
    ensures { (result ≤ 2 * block_size) × (left + 1 + length_size ≤ result) × (gap left ≡ result - length_size - (left + 1)) }
{
    if left + 1 + LENGTH <= BLOCK {
        BLOCK
    } else {
        2 * BLOCK
    }
}

// The end of a message of total bytes whose last part is given.
pub fn ending(last: &[u8], total: usize) -> Tail
    ensures { result ≡ Tails.tail_of last.now total }
{
    let (_, rest) = last.as_chunks::<BLOCK>();
    let left = rest.len();
    let count = room(left);
    let mut bytes = [0u8; 2 * BLOCK];
    bytes[..left].copy_from_slice(rest);
    bytes[left] = 0x80;
    bytes[count - LENGTH..count].copy_from_slice(&(total << 3).to_be_bytes());
    Tail { bytes, count }
}
