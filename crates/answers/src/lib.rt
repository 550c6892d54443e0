// One answer to its text: `ok`, `slot S`, `in S`, `out N`, `dead S`, `hex` and the bytes, `no R` (document 01, "The line program").
#![tactic(auto)]

ghost use Rattle.std.specs.Prelude.{◌≡◌, List, [], ◌∷◌, ◌++◌, ℕ, ◌+◌, ◌*◌, ◌≤◌, length};
ghost use Rattle.std.proofs.lemmas.List.Edits.{sets};
ghost use Rattle.numerals.specs.Decimal.{decimal};
ghost use Rattle.numerals.specs.Hex.{pairs};
ghost use Rattle.answers.specs.Text.{most_shown, shown_of, ended, printed, Determined};

use events::Answer;
use geometry::Geometry;

// The most characters of an answer's text, its newline too.
pub const LONGEST_TEXT: usize = 8197;

// A word and the end of the line. Not by `write!`: of one that fails the library says nothing, and then no text could be promised.
fn say_word(text: &mut [u8], word: &[u8]) -> usize
    requires { (length word.now + 1 ≤ length text.old) × (length word.now ≤ most_shown) }
    ensures { (text.new ≡ sets text.old 0 (ended word.now)) × (result ≡ length (ended word.now)) }
{
    memory::put_bytes(text, 0, word);
    let n = word.len();
    text[n] = 10;
    n + 1
}

// A word, a number and the end of the line.
fn say_number(text: &mut [u8], word: &[u8], x: u64) -> usize
    requires { (length word.now + 21 ≤ length text.old) × (length word.now ≤ most_shown) }
    ensures { (text.new ≡ sets text.old 0 (word.now ++ ended (decimal x))) × (result ≡ length (word.now ++ ended (decimal x))) }
{
    memory::put_bytes(text, 0, word);
    let e = numerals::put_decimal(text, word.len(), x);
    text[e] = 10;
    e + 1
}

// A word, bytes as pairs and the end of the line.
fn say_bytes(text: &mut [u8], word: &[u8], bytes: &[u8]) -> usize
    requires { (length word.now + length bytes.now * 2 + 1 ≤ length text.old) × (length word.now ≤ most_shown) }
    ensures { (text.new ≡ sets text.old 0 (word.now ++ ended (pairs bytes.now))) × (result ≡ length (word.now ++ ended (pairs bytes.now))) }
{
    memory::put_bytes(text, 0, word);
    numerals::put_pairs(bytes, text, word.len());
    let e = word.len() + bytes.len() * 2;
    text[e] = 10;
    e + 1
}

// The text of an answer, at the front of a lent slice that has room for any; its length.
pub fn say(answer: Answer, buffer: &[u8], text: &mut [u8]) -> usize
    ensures { (text.new ≡ sets text.old 0 (printed (length text.old) answer buffer.now)) × (result ≡ length (printed (length text.old) answer buffer.now)) }
{
    if text.len() < LONGEST_TEXT {
        return 0;
    }
    match answer {
        Answer::Done => say_word(text, b"ok"),
        Answer::Slot(s) => say_number(text, b"slot ", s as u64),
        Answer::Entered(s) => say_number(text, b"in ", s as u64),
        Answer::Left(n) => say_number(text, b"out ", n as u64),
        Answer::Terminated(s) => say_number(text, b"dead ", s as u64),
        Answer::Filled(n) => {
            let m = n.min(Geometry::PAGE).min(buffer.len());
            say_bytes(text, b"hex ", &buffer[..m])
        }
        Answer::Refused(r) => say_number(text, b"no ", u64::from(u8::from(r))),
    }
}

// What is printed for an answer determines it: the answer, and the bytes that it speaks of.
pub fn determined()
    ensures { Determined }
{}
