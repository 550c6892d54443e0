// One line of the program's input to a command (document 01, "The line program").
#![tactic(auto)]

mod fields;

ghost use Rattle.std.specs.Prelude.{◌≡◌, Bool, true, List, ℕ, ◌≤◌, length};
ghost use Rattle.std.proofs.lemmas.List.Edits.{sets};
ghost use Rattle.lists.specs.Below.{pick};
ghost use Rattle.lines.specs.Grammar.{name_of, verb_of, shape_of, event_of, argument_at, arguments_of, line_of, payload_room, payload_of};

use events::Event;
use memory::Source;

#[derive(Clone, Copy)]
pub enum Verb {
    Reg,
    Unr,
    Call,
    Ret,
    Jmp,
    Get,
    Put,
    Dget,
    Dput,
    Extp,
    Extm,
    Pcr,
}

const VERBS: [Verb; 12] = [
    Verb::Reg,
    Verb::Unr,
    Verb::Call,
    Verb::Ret,
    Verb::Jmp,
    Verb::Get,
    Verb::Put,
    Verb::Dget,
    Verb::Dput,
    Verb::Extp,
    Verb::Extm,
    Verb::Pcr,
];

fn name_of(v: Verb) -> &'static [u8]
    ensures { result.now ≡ name_of v }
{
    match v {
        Verb::Reg => b"reg",
        Verb::Unr => b"unr",
        Verb::Call => b"call",
        Verb::Ret => b"ret",
        Verb::Jmp => b"jmp",
        Verb::Get => b"get",
        Verb::Put => b"put",
        Verb::Dget => b"dget",
        Verb::Dput => b"dput",
        Verb::Extp => b"extp",
        Verb::Extm => b"extm",
        Verb::Pcr => b"pcr",
    }
}

fn verb_of(word: &[u8]) -> Option<Verb>
    ensures { result ≡ verb_of word.now }
{
    VERBS.iter().copied().find(|v| name_of(*v) == word)
}

// How many fields a command has, how many of them are numbers, and whether a HEX follows these.
#[derive(Clone, Copy)]
pub struct Shape {
    pub fields: usize,
    pub numbers: usize,
    pub hex: bool,
}

fn shaped(fields: usize, numbers: usize, hex: bool) -> Shape
    ensures { result ≡ record { fields = fields; numbers = numbers; hex = hex } }
{
    Shape {
        fields,
        numbers,
        hex,
    }
}

fn shape_of(v: Verb) -> Shape
    ensures { result ≡ shape_of v }
{
    match v {
        Verb::Reg => shaped(3, 1, true),
        Verb::Unr => shaped(3, 2, false),
        Verb::Call => shaped(5, 4, false),
        Verb::Ret => shaped(1, 0, false),
        Verb::Jmp => shaped(2, 1, false),
        Verb::Get => shaped(3, 2, false),
        Verb::Put => shaped(3, 1, true),
        Verb::Dget => shaped(3, 2, false),
        Verb::Dput => shaped(3, 1, true),
        Verb::Extp => shaped(3, 1, true),
        Verb::Extm => shaped(4, 3, false),
        Verb::Pcr => shaped(2, 1, false),
    }
}

// The numbers of a line, 0 beyond them.
#[derive(Clone, Copy)]
pub struct Arguments {
    pub first: u64,
    pub second: u64,
    pub third: u64,
    pub fourth: u64,
}

fn event_of(v: Verb, x: Arguments) -> Event
    ensures { result ≡ event_of v x }
{
    let mark = x.first;
    let a = x.first as usize;
    let b = x.second as usize;
    let c = x.third as usize;
    let d = x.fourth as usize;
    match v {
        Verb::Reg => Event::Register { mark },
        Verb::Unr => Event::Unregister { mark, slot: b },
        Verb::Call => Event::Call {
            mark,
            address: b,
            input: c,
            output: d,
        },
        Verb::Ret => Event::Return,
        Verb::Jmp => Event::Jump { address: a },
        Verb::Get => Event::Read {
            address: a,
            length: b,
        },
        Verb::Put => Event::Write { address: a },
        Verb::Dget => Event::DeviceRead {
            address: a,
            length: b,
        },
        Verb::Dput => Event::DeviceWrite { address: a },
        Verb::Extp => Event::Extend {
            index: a,
            source: Source::Payload,
            address: 0,
            length: 0,
        },
        Verb::Extm => Event::Extend {
            index: a,
            source: Source::Memory,
            address: b,
            length: c,
        },
        Verb::Pcr => Event::PcrRead { index: a },
    }
}

fn argument_at(line: &[u8], n: usize, k: usize) -> Option<u64>
    ensures { result ≡ argument_at line.now n k }
{
    if n < k {
        return Some(0);
    }
    numerals::number(fields::field_of(line, k))
}

fn arguments_of(line: &[u8], n: usize) -> Option<Arguments>
    ensures { result ≡ arguments_of line.now n }
{
    Some(Arguments {
        first: argument_at(line, n, 1)?,
        second: argument_at(line, n, 2)?,
        third: argument_at(line, n, 3)?,
        fourth: argument_at(line, n, 4)?,
    })
}

// What a line says: an event and how many payload bytes go with it.
#[derive(Clone, Copy)]
pub struct Said {
    pub event: Event,
    pub length: usize,
}

// "A line over 2,000 characters .. is `no 11`"
pub const LONGEST_LINE: usize = 2000;

// Room for any payload: two characters a byte. Who lends it may lend more: an array of just this length in the type would ask more of callers.
pub const PAYLOAD_ROOM: usize = 1000;

// One line, without its newline, to what it says; the payload goes to the front of a lent slice, which a thousand bytes are enough for.
pub fn read_line(line: &[u8], payload: &mut [u8]) -> Option<Said>
    requires { payload_room ≤ length payload.old }
    ensures { (result ≡ line_of line.now) × (payload.new ≡ sets payload.old 0 (payload_of line.now)) }
{
    if LONGEST_LINE < line.len() {
        return None;
    }
    let verb = verb_of(fields::field_of(line, 0))?;
    let shape = shape_of(verb);
    if fields::field_count(line) != shape.fields {
        return None;
    }
    let arguments = arguments_of(line, shape.numbers)?;
    let event = event_of(verb, arguments);
    if !shape.hex {
        return Some(Said { event, length: 0 });
    }
    let text = fields::field_of(line, shape.numbers + 1);
    if !numerals::is_hex(text) {
        return None;
    }
    numerals::put_hex(text, payload);
    Some(Said {
        event,
        length: text.len() / 2,
    })
}
