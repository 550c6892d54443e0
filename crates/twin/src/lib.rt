// The state, events and answers as C hands them over: numbers and arrays, no enum. What crosses, and how it is read here.
#![tactic(auto)]

ghost use Rattle.std.specs.Prelude.{◌≡◌};
ghost use Rattle.twin.specs.Twin.{mode_of, number_of, opened_of, shut_of};
ghost use Rattle.twin.specs.Asked.{source_of, asked_of, reply_of, counted_reply, unknown_reply};
ghost use Rattle.twin.specs.Promise.{AsGiven, Told, Answered};

use events::{Answer, Event, Refusal};
use geometry::Geometry;
use memory::Source;
use state::{Mode, Running, Slot, State};

// The state's twin, laid out as host/monitor.h has it: so the mode is a number, 0 legacy, n + 1 secure in slot n.
#[repr(C)]
#[derive(Clone, Copy)]
pub struct Monitor {
    pub pages: usize,
    pub kept: usize,
    pub owner: [u8; Geometry::MOST_PAGES],
    pub slots: [Slot; Geometry::SLOTS],
    pub mode: usize,
    pub running: Running,
}

// An event, laid out as host/monitor.h has it: its kind, a number, and the numbers of all kinds, of which each kind has its own.
#[repr(C)]
#[derive(Clone, Copy)]
pub struct Request {
    pub kind: usize,
    pub mark: u64,
    pub slot: usize,
    pub address: usize,
    pub length: usize,
    pub input: usize,
    pub output: usize,
    pub index: usize,
    pub source: usize,
}

// An answer, laid out as host/monitor.h has it: the number given for no, or 0; its kind, a number, and its value.
#[repr(C)]
#[derive(Clone, Copy)]
pub struct Reply {
    pub number: u8,
    pub kind: u8,
    pub value: usize,
}

// What a request is that names no event: its kind, or its source, is none.
#[derive(Clone, Copy, Debug, PartialEq, Eq)]
pub struct NoEvent;

// The mode of C's number. A function and no `From`: neither the number's type nor the mode's is of this crate, which an `impl` needs.
pub fn mode_of(n: usize) -> Mode
    ensures { result ≡ mode_of n }
{
    n.checked_sub(1).map_or(Mode::Legacy, Mode::Secure)
}

// A mode's number. The greatest slot has no successor, and no mode of C's has it.
pub fn number_of(m: Mode) -> usize
    ensures { result ≡ number_of m }
{
    match m {
        Mode::Legacy => 0,
        Mode::Secure(k) => k.checked_add(1).unwrap_or(0),
    }
}

impl From<Monitor> for State {
    ghost from_gives = { λ m s. s ≡ opened_of m };

    // An array goes by a variable of its own: the prover covers no copy of one from field to field.
    fn from(m: Monitor) -> State {
        let owner = m.owner;
        let slots = m.slots;
        State {
            pages: m.pages,
            kept: m.kept,
            owner,
            slots,
            mode: mode_of(m.mode),
            running: m.running,
        }
    }
}

impl From<State> for Monitor {
    ghost from_gives = { λ s m. m ≡ shut_of s };

    fn from(s: State) -> Monitor {
        let owner = s.owner;
        let slots = s.slots;
        Monitor {
            pages: s.pages,
            kept: s.kept,
            owner,
            slots,
            mode: number_of(s.mode),
            running: s.running,
        }
    }
}

// An extend's source: 1 payload, 2 memory.
#[tactic(auto, unfolding(crate::specs::Asked::source_of))]
fn source_of(n: usize) -> Result<Source, NoEvent>
    ensures { result ≡ source_of n }
{
    match n {
        1 => Ok(Source::Payload),
        2 => Ok(Source::Memory),
        _ => Err(NoEvent),
    }
}

// The event that a request names. Its kind is looked at here alone, so that an enum of kinds would be a second list of the events.
impl TryFrom<Request> for Event {
    type Error = NoEvent;

    ghost try_from_gives = { λ q r. r ≡ asked_of q };

    #[tactic(auto, unfolding(crate::specs::Asked::asked_as))]
    fn try_from(q: Request) -> Result<Event, NoEvent> {
        let event = match q.kind {
            1 => Event::Register { mark: q.mark },
            2 => Event::Unregister {
                mark: q.mark,
                slot: q.slot,
            },
            3 => Event::Call {
                mark: q.mark,
                address: q.address,
                input: q.input,
                output: q.output,
            },
            4 => Event::Return,
            5 => Event::Jump { address: q.address },
            6 => Event::Read {
                address: q.address,
                length: q.length,
            },
            7 => Event::Write { address: q.address },
            8 => Event::DeviceRead {
                address: q.address,
                length: q.length,
            },
            9 => Event::DeviceWrite { address: q.address },
            10 => Event::Extend {
                index: q.index,
                source: source_of(q.source)?,
                address: q.address,
                length: q.length,
            },
            11 => Event::PcrRead { index: q.index },
            _ => return Err(NoEvent),
        };
        Ok(event)
    }
}

impl From<Answer> for Reply {
    ghost from_gives = { λ a r. r ≡ reply_of a };

    fn from(a: Answer) -> Reply {
        let (number, kind, value) = match a {
            Answer::Refused(r) => (u8::from(r), 0, 0),
            Answer::Done => (0, 1, 0),
            Answer::Slot(k) => (0, 2, k),
            Answer::Entered(k) => (0, 3, k),
            Answer::Left(n) => (0, 4, n),
            Answer::Terminated(k) => (0, 5, k),
            Answer::Filled(n) => (0, 6, n),
        };
        Reply {
            number,
            kind,
            value,
        }
    }
}

// So many bytes of the buffer, or a refusal: what the manifest's writer and the device map answer.
impl From<Result<usize, Refusal>> for Reply {
    ghost from_gives = { λ w r. r ≡ counted_reply w };

    fn from(w: Result<usize, Refusal>) -> Reply {
        let answer = match w {
            Ok(n) => Answer::Filled(n),
            Err(r) => Answer::Refused(r),
        };
        Reply::from(answer)
    }
}

// What is answered where no event was asked.
impl From<NoEvent> for Reply {
    ghost from_gives = { λ _ r. r ≡ unknown_reply };

    fn from(_: NoEvent) -> Reply {
        Reply {
            number: 255,
            kind: 0,
            value: 0,
        }
    }
}

// A state that is read and written back as it was is the one that C handed over.
pub fn as_given()
    ensures { AsGiven }
{}

// A reply has document 01's number and values.
pub fn told()
    ensures { Told }
{}

// The answer can be read off the reply.
pub fn answered()
    ensures { Answered }
{}
