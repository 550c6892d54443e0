// Numbers and bytes as text: "decimal u64 without leading zeros; HEX is lower-case pairs or `-` for none" (document 01, "The line program").
#![tactic(auto)]

ghost use Rattle.std.specs.Prelude.{◌≡◌, Bool, true, List, ℕ, ◌+◌, ◌*◌, ◌/◌, ◌≤◌, ◌<◌, length};
ghost use Rattle.std.proofs.lemmas.List.Edits.{sets};
ghost use Rattle.numerals.specs.Decimal.{digit_value, more_of, number_of, decimal};
ghost use Rattle.numerals.specs.Hex.{hex_value, is_hex, hex_bytes, hex_digit, pairs};
ghost use Rattle.numerals.specs.Place.{place_of};

use itoa::Buffer;

// The first place of a character in a text, or the text's length: an end either way, by which `gather::line_end` and its definition cut.
pub fn place_of(text: &[u8], c: u8) -> usize
    ensures { result ≡ place_of text.now c }
{
    text.iter().position(|x| *x == c).unwrap_or(text.len())
}

fn digit_value(c: u8) -> Option<u8>
    ensures { result ≡ digit_value c }
{
    match c {
        b'0'..=b'9' => Some(c - b'0'),
        _ => None,
    }
}

// One digit more, where it is one and the number still fits 64 bits.
fn more(value: u64, c: u8) -> Option<u64>
    ensures { result ≡ more_of value c }
{
    let digit = digit_value(c)?;
    value.checked_mul(10)?.checked_add(u64::from(digit))
}

pub fn number(text: &[u8]) -> Option<u64>
    ensures { result ≡ number_of text.now }
{
    if text.is_empty() {
        return None;
    }
    if (1 < text.len()) & (text[0] == b'0') {
        return None;
    }
    let mut value = 0;
    for c in text {
        value = more(value, *c)?;
    }
    Some(value)
}

// A lower-case hex digit's value.
fn hex_value(c: u8) -> Option<u8>
    ensures { result ≡ hex_value c }
{
    match c {
        b'0'..=b'9' => Some(c - b'0'),
        b'a'..=b'f' => Some(c - b'a' + 10),
        _ => None,
    }
}

// Whether a field is HEX: `-`, or pairs.
pub fn is_hex(text: &[u8]) -> bool
    ensures { result ≡ is_hex text.now }
{
    if text == b"-".as_slice() {
        return true;
    }
    // To the end, also behind a character that is none: a loop that may leave at each character takes one at a time.
    let mut right = true;
    for c in text {
        right &= hex_value(*c).is_some();
    }
    2 <= text.len() && text.len() % 2 == 0 && right
}

// The bytes of a HEX field go to the front of a lent slice. What is no digit, of which a HEX field has none, is worth 0: so no character asks for a branch.
pub fn put_hex(text: &[u8], out: &mut [u8])
    requires { (is_hex text.now ≡ true) × (length text.now / 2 ≤ length out.old) }
    ensures { out.new ≡ sets out.old 0 (hex_bytes text.now) }
{
    let (pairs, _) = text.as_chunks::<2>();
    for (i, [high, low]) in pairs.iter().enumerate() {
        out[i] = hex_value(*high).unwrap_or(0) * 16 + hex_value(*low).unwrap_or(0);
    }
}

fn hex_digit(x: u8) -> u8
    requires { x < 16 }
    ensures { result ≡ hex_digit x }
{
    if x < 10 {
        return 48 + x;
    }
    87 + x
}

// Bytes as pairs, from a place of a lent slice on.
pub fn put_pairs(bytes: &[u8], out: &mut [u8], at: usize)
    requires { at + length bytes.now * 2 ≤ length out.old }
    ensures { out.new ≡ sets out.old at (pairs bytes.now) }
{
    for (i, b) in bytes.iter().enumerate() {
        out[at + i * 2] = hex_digit(*b / 16);
        out[at + i * 2 + 1] = hex_digit(*b % 16);
    }
}

// A number in decimal, from a place of a lent slice on; the place after it.
pub fn put_decimal(out: &mut [u8], at: usize, x: u64) -> usize
    requires { at + 20 ≤ length out.old }
    ensures { (out.new ≡ sets out.old at (decimal x)) × (result ≡ at + length (decimal x)) }
{
    let mut buffer = Buffer::new();
    let digits = buffer.format(x).as_bytes();
    memory::put_bytes(out, at, digits);
    at + digits.len()
}
