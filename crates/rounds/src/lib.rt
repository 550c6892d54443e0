#![tactic(auto)]

ghost use Rattle.std.specs.Prelude.{◌≡◌, ◌<◌, ℕ, length, fold};
ghost use Rattle.rounds.specs.Word as Word;
ghost use Rattle.blocks.specs.Blocks.{block_size};
ghost use Rattle.rounds.specs.Rounds as Rounds;

// The words of a block, the rounds, and the words that follow a block's own.
const FIRST: usize = 16;

const ROUNDS: usize = 80;

const LATER: usize = ROUNDS - FIRST;

// The rounds that have one function and one constant, and where the second and the third of these quarters end.
const QUARTER: usize = 20;

const SECOND: usize = 2 * QUARTER;

const THIRD: usize = 3 * QUARTER;

#[repr(C)]
#[derive(Clone, Copy)]
pub struct Words {
    pub a: u32,
    pub b: u32,
    pub c: u32,
    pub d: u32,
    pub e: u32,
}

// By shifts, the form that document 01 names.
fn rotl<const N: u32>(x: u32) -> u32
    requires { (0 < N) × (N < 32) }
    ensures { result ≡ Word.rotl N x }
{
    (x << N) | (x >> (32 - N))
}

fn ch(x: u32, y: u32, z: u32) -> u32
    ensures { result ≡ Word.ch x y z }
{
    (x & y) ^ (!x & z)
}

fn parity(x: u32, y: u32, z: u32) -> u32
    ensures { result ≡ Word.parity x y z }
{
    x ^ y ^ z
}

fn maj(x: u32, y: u32, z: u32) -> u32
    ensures { result ≡ Word.maj x y z }
{
    (x & y) ^ (x & z) ^ (y & z)
}

// A round with the value f of its function, its constant k and its word w.
#[tactic(auto, unfolding(crate::specs::Rounds::stepped))]
fn step(s: Words, f: u32, k: u32, w: u32) -> Words
    ensures { result ≡ Rounds.stepped f k w s }
{
    Words {
        a: rotl::<5>(s.a)
            .wrapping_add(f)
            .wrapping_add(s.e)
            .wrapping_add(k)
            .wrapping_add(w),
        b: s.a,
        c: rotl::<30>(s.b),
        d: s.c,
        e: s.d,
    }
}

// The rounds that have one function and one constant, each with the next of the words w. Put in place by LLVM, since a call there costs a third of the time.
#[inline(always)]
fn quarter<F: Fn(u32, u32, u32) -> u32>(mut s: Words, w: &[u32], mix: F, k: u32) -> Words
    requires { F.IsAlwaysCallable mix }
    ensures { (q : ℕ) → ((x y z r : ℕ) → F.post mix x y z r → r ≡ Rounds.mix q x y z) → k ≡ Rounds.constant q → result ≡ fold (λ s w. Rounds.round q w s) s w.now }
{
    for x in w {
        s = step(s, mix(s.b, s.c, s.d), k, *x);
    }
    s
}

#[tactic(auto, unfolding(crate::specs::Rounds::sums))]
fn sums(h: Words, s: Words) -> Words
    ensures { result ≡ Rounds.sums h s }
{
    Words {
        a: h.a.wrapping_add(s.a),
        b: h.b.wrapping_add(s.b),
        c: h.c.wrapping_add(s.c),
        d: h.d.wrapping_add(s.d),
        e: h.e.wrapping_add(s.e),
    }
}

fn schedule(b: &[u8]) -> [u32; ROUNDS]
    requires { length b.now ≡ block_size }
    ensures { result ≡ Rounds.schedule b.now Rounds.later_words }
{
    let mut w = [0u32; ROUNDS];
    // By place, as the definition of a block's words has it.
    for t in 0..FIRST {
        w[t] = blocks::word(b, t * blocks::WORD);
    }
    for turn in 0..LATER / FIRST {
        // LLVM writes out the turns of a loop whose number it knows: words that are soon read again stay in registers.
        for i in 0..FIRST {
            let n = turn * FIRST + i;
            w[n + FIRST] = rotl::<1>(w[n + 13] ^ w[n + 8] ^ w[n + 2] ^ w[n]);
        }
    }
    w
}

// One block.
pub fn compress(h: Words, b: &[u8]) -> Words
    requires { length b.now ≡ block_size }
    ensures { result ≡ Rounds.compress h b.now }
{
    let w = schedule(b);
    let first = quarter(h, &w[..QUARTER], ch, 0x5a827999);
    let second = quarter(first, &w[QUARTER..SECOND], parity, 0x6ed9eba1);
    let third = quarter(second, &w[SECOND..THIRD], maj, 0x8f1bbcdc);
    let last = quarter(third, &w[THIRD..], parity, 0xca62c1d6);
    sums(h, last)
}
