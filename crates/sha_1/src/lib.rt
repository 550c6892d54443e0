#![tactic(auto)]

ghost use Rattle.std.specs.Prelude.{◌≡◌, ◌++◌};
ghost use Rattle.blocks.specs.Blocks as Blocks;
ghost use Rattle.rounds.specs.Rounds as Rounds;
ghost use Rattle.sha_1.specs.Sha1 as Sha1;
ghost use Rattle.sha_1.specs.Parts as Parts;
ghost use Rattle.sha_1.specs.Laws.{Laws};
ghost use Rattle.sha_1.specs.Examples.{Examples};

use geometry::Geometry;

// The words after the whole blocks of p. The one call of compress: LLVM inlines it here.
fn folded(h: rounds::Words, p: &[u8]) -> rounds::Words
    ensures { result ≡ Blocks.folded Rounds.compress h p.now }
{
    let (whole, _) = p.as_chunks::<{ blocks::BLOCK }>();
    let mut s = h;
    for b in whole {
        s = rounds::compress(s, b);
    }
    s
}

// A hash under way: the words after the blocks taken in, and how many bytes those were, modulo 2 ^ 64.
#[repr(C)]
#[derive(Clone, Copy)]
pub struct Hashing {
    pub words: rounds::Words,
    pub size: usize,
}

#[repr(C)]
#[derive(Clone, Copy, PartialEq, Eq)]
pub struct Digest {
    pub bytes: [u8; Geometry::DIGEST],
}

// FIPS 180-4, 5.3.1.
const FIRST: rounds::Words = rounds::Words {
    a: 0x67452301,
    b: 0xefcdab89,
    c: 0x98badcfe,
    d: 0x10325476,
    e: 0xc3d2e1f0,
};

#[tactic(auto, unfolding(crate::specs::Sha1::first, crate::specs::Parts::fresh))]
pub fn start() -> Hashing
    ensures { result ≡ Parts.fresh }
{
    Hashing {
        words: FIRST,
        size: 0,
    }
}

// The whole blocks of a part.
#[tactic(auto, unfolding(crate::specs::Parts::taken_in))]
pub fn taken(h: Hashing, part: &[u8]) -> Hashing
    ensures { result ≡ Parts.taken_in h part.now }
{
    let whole = part.len() / blocks::BLOCK * blocks::BLOCK;
    Hashing {
        words: folded(h.words, part),
        size: h.size.wrapping_add(whole),
    }
}

fn digest_of(w: rounds::Words) -> Digest
    ensures { result.bytes ≡ Sha1.bytes_of w }
{
    // Word by word: of `map` the check leaves open what each call of the closure gave.
    let words = [
        w.a.to_be_bytes(),
        w.b.to_be_bytes(),
        w.c.to_be_bytes(),
        w.d.to_be_bytes(),
        w.e.to_be_bytes(),
    ];
    let mut bytes = [0u8; Geometry::DIGEST];
    bytes.copy_from_slice(words.as_flattened());
    Digest { bytes }
}

// The digest of what was taken in, followed by a last part of any length.
pub fn finished(h: Hashing, last: &[u8]) -> Digest
    ensures { result.bytes ≡ Parts.finished_of h last.now }
{
    let words = folded(h.words, last);
    let tail = blocks::ending(last, h.size.wrapping_add(last.len()));
    digest_of(folded(words, tail.as_slice()))
}

pub fn hash(part: &[u8]) -> Digest
    ensures { result.bytes ≡ Sha1.sha1 part.now }
{
    finished(start(), part)
}

// Of two digests, one after the other.
pub fn hash_pair(x: Digest, y: Digest) -> Digest
    ensures { result.bytes ≡ Sha1.sha1 (x.bytes ++ y.bytes) }
{
    // A field that is an array may not be an element of an array literal yet.
    let (p, q) = (x.bytes, y.bytes);
    hash([p, q].as_flattened())
}

// Two theorems about the definitions, which no code could lose unnoticed.
pub fn laws()
    ensures { Laws }
{}

pub fn examples()
    ensures { Examples }
{}
