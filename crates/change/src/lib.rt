// What an event leaves: its answer, and what becomes of the state. Events look at the state and say what becomes of it; what each turn stores is said
// here alone, for a state by value (`changed`) and, part by part, for one that is lent. So no event copies the state.
#![tactic(auto)]

ghost use Rattle.std.specs.Prelude.{◌≡◌, ◌<◌};
ghost use Rattle.geometry.specs.Geometry.{slot_count};
ghost use Rattle.change.specs.Turns as Turns;
ghost use Rattle.change.specs.Parts as Parts;

use events::Answer;
use fields::Fields;
use sha_1::Digest;
use state::{Card, Mode, Running, Slot, State};

#[derive(Clone, Copy)]
pub enum Turn {
    Kept,
    Enters(Running),
    Leaves(Running),
    Frees(usize),
    Extends {
        slot: usize,
        index: usize,
        digest: Digest,
    },
    Enrolls {
        slot: usize,
        mark: u64,
        fields: Fields,
        digest: Digest,
    },
}

#[derive(Clone, Copy)]
pub struct Change {
    pub answer: Answer,
    pub turn: Turn,
}

// What a turn stores, part by part, so that a state that is lent is changed where it stands: the mode and the running record; a slot, by its number,
#[derive(Clone, Copy)]
pub struct Steer {
    pub mode: Mode,
    pub running: Running,
}

// what stands in it afterwards, and the owner that the pages of the fields' runs get.
#[derive(Clone, Copy)]
pub struct Seat {
    pub slot: Slot,
    pub fields: Fields,
    pub owner: u8,
}

pub fn turned(answer: Answer, turn: Turn) -> Change
    ensures { result ≡ Turns.turn_of answer turn }
{
    Change { answer, turn }
}

// The state stays.
pub fn kept(answer: Answer) -> Change
    ensures { result ≡ Turns.turn_of answer Turn.Kept }
{
    turned(answer, Turn::Kept)
}

// Slot k's µPCR is extended by the digest.
pub fn extending(k: usize, index: usize, digest: Digest) -> Change
    ensures { result ≡ Turns.extends_by k index digest }
{
    let turn = Turn::Extends {
        slot: k,
        index,
        digest,
    };
    turned(Answer::Done, turn)
}

// Slot k becomes that of a fresh codeblock with the digest as its measurement.
pub fn enrolling(k: usize, mark: u64, fields: Fields, digest: Digest) -> Change
    ensures { result ≡ Turns.enrolls_by k mark fields digest }
{
    let turn = Turn::Enrolls {
        slot: k,
        mark,
        fields,
        digest,
    };
    turned(Answer::Slot(k), turn)
}

// The mode and the running record after the turn, where it changes them.
pub fn steering(turn: Turn) -> Option<Steer>
    ensures { result ≡ Parts.steering turn }
{
    let (mode, running) = match turn {
        Turn::Enters(running) => (Mode::Secure(running.slot), running),
        Turn::Leaves(running) => (Mode::Legacy, running),
        Turn::Frees(_) => (Mode::Legacy, Running::NONE),
        Turn::Kept | Turn::Extends { .. } | Turn::Enrolls { .. } => return None,
    };
    Some(Steer { mode, running })
}

// The slot that the turn fills, where it fills one.
pub fn placing(turn: Turn) -> Option<usize>
    ensures { result ≡ Parts.placing turn }
{
    match turn {
        Turn::Frees(slot) | Turn::Extends { slot, .. } | Turn::Enrolls { slot, .. } => Some(slot),
        Turn::Kept | Turn::Enters(_) | Turn::Leaves(_) => None,
    }
}

// No page gets another owner.
fn filled(slot: Slot) -> Seat
    ensures { result ≡ Parts.filled slot }
{
    Seat {
        slot,
        fields: Fields::NONE,
        owner: 0,
    }
}

// "Release: .. the pages open; the slot becomes zero"
fn freed(was: Slot) -> Seat
    ensures { result ≡ Parts.freed was }
{
    Seat {
        slot: was.cleared(),
        fields: was.card.fields,
        owner: 0,
    }
}

fn enrolled(k: usize, mark: u64, fields: Fields, digest: Digest) -> Seat
    requires { k < slot_count }
    ensures { result ≡ Parts.enrolled k mark fields digest }
{
    let card = Card {
        registered: true,
        mark,
        fields,
    };
    let pcrs = Slot::zero().extended(0, digest).pcrs;
    Seat {
        slot: Slot { card, pcrs },
        fields,
        owner: (k + 1) as u8,
    }
}

// What the turn makes of the slot that it fills.
pub fn seating(was: Slot, turn: Turn) -> Seat
    requires { Parts.Seats turn }
    ensures { result ≡ Parts.seating was turn }
{
    match turn {
        Turn::Kept | Turn::Enters(_) | Turn::Leaves(_) => filled(was),
        Turn::Frees(_) => freed(was),
        Turn::Extends { index, digest, .. } => filled(was.extended(index, digest)),
        Turn::Enrolls {
            slot,
            mark,
            fields,
            digest,
        } => enrolled(slot, mark, fields, digest),
    }
}

fn seat_stored(mut s: State, turn: Turn) -> State
    requires { Turns.Fits s turn }
    ensures { result ≡ Parts.seat_stored s turn }
{
    if let Some(k) = placing(turn) {
        let seat = seating(s.slots[k], turn);
        painting::paint_runs(&mut s.owner, &seat.fields, seat.owner);
        s.slots[k] = seat.slot;
    }
    s
}

fn mode_stored(mut s: State, steer: Option<Steer>) -> State
    ensures { result ≡ Parts.mode_stored s steer }
{
    if let Some(x) = steer {
        s.mode = x.mode;
        s.running = x.running;
    }
    s
}

// The state after the change.
pub fn changed(s: State, c: Change) -> State
    requires { Turns.Fits s c.turn }
    ensures { result ≡ Turns.changed_by s c.turn }
{
    mode_stored(seat_stored(s, c.turn), steering(c.turn))
}
