// An event for C: the monitor's state is lent, everything else is a struct by value or a lent slice. It asks nothing of its caller beyond what
// C owes (host/monitor.h).
#![tactic(auto)]

ghost use Rattle.std.specs.Prelude.{◌≡◌, ◌<◌};
ghost use Rattle.geometry.specs.Geometry.{slot_count};
ghost use Rattle.painting.specs.Painting.{RunsFit};
ghost use Rattle.change.specs.Parts.{Seats};
ghost use Rattle.wellformed.specs.Seen.{seen_of};
ghost use Rattle.twin.specs.Twin.{opened_of};
ghost use Rattle.host.specs.Host.{Comes, heard_of, none_heard, hosted, host_step, host_looks, host_looked, seat_in, filled};
ghost use Rattle.host.specs.Promise.{RefusalsKeepAll};

use change::{Change, Turn};
use decide::Look;
use events::Event;
use state::State;
use twin::{Monitor, NoEvent, Reply, Request};
use wellformed::{Parts, Sight};

// What an event comes to: its reply, and what becomes of the state.
#[derive(Clone, Copy)]
pub struct Heard {
    pub reply: Reply,
    pub turn: Turn,
}

// Where the event looks; where none was asked, anywhere.
fn looking(q: Request, mode: usize) -> Look
    ensures { result ≡ host_looks q mode }
{
    let Ok(e) = Event::try_from(q) else {
        return Look {
            slot: 0,
            page: 0,
            other: 0,
        };
    };
    decide::looking(e, twin::mode_of(mode))
}

// The test of the state where it stands, and what the event looks at in it.
fn sees(m: &Monitor, n: usize, page: usize, other: usize) -> Option<Sight>
    ensures { result ≡ seen_of (opened_of m.now) n page other }
{
    let parts = Parts {
        pages: m.pages,
        kept: m.kept,
        owner: &m.owner,
        slots: &m.slots,
        mode: twin::mode_of(m.mode),
        running: m.running,
    };
    wellformed::seen_in(&parts, n, page, other)
}

// A change, told to C.
fn parts(c: Change) -> Heard
    ensures { result ≡ heard_of c }
{
    Heard {
        reply: Reply::from(c.answer),
        turn: c.turn,
    }
}

// No event: nothing is stored.
fn unheard() -> Heard
    ensures { result ≡ none_heard }
{
    Heard {
        reply: Reply::from(NoEvent),
        turn: Turn::Kept,
    }
}

// One event, on a state by value, by what it saw.
fn hear(
    m: Monitor,
    q: Request,
    x: Option<Sight>,
    payload: &[u8],
    memory: &mut [u8],
    buffer: &mut [u8],
) -> Heard
    requires { x ≡ host_looked m q }
    ensures { Comes m result memory.new buffer.new (host_step m q payload.now memory.old buffer.old) }
{
    let Ok(e) = Event::try_from(q) else {
        return unheard();
    };
    parts(decide::decided(e, x, payload, State::from(m), memory, buffer))
}

// What the turn makes of slot k, and of its pages' owners, is stored where it stands. A function of its own, so that an event that fills no slot pays for no seat.
fn seats(m: &mut Monitor, k: usize, turn: Turn)
    requires { (k < slot_count) × (Seats turn × RunsFit (seat_in m.now turn k).fields) }
    ensures { m.new ≡ filled m.old k (seat_in m.old turn k) }
{
    let seat = change::seating(m.slots[k], turn);
    m.slots[k] = seat.slot;
    painting::paint_runs(&mut m.owner, &seat.fields, seat.owner);
}

// One event, on the lent state: each part that the event changes is stored where it stands.
pub fn monitor_event(
    m: &mut Monitor,
    q: Request,
    payload: &[u8],
    memory: &mut [u8],
    buffer: &mut [u8],
) -> Reply
    ensures { hosted result m.new memory.new buffer.new ≡ host_step m.old q payload.now memory.old buffer.old }
{
    let l = looking(q, m.mode);
    let x = sees(m, l.slot, l.page, l.other);
    let h = hear(*m, q, x, payload, memory, buffer);
    if let Some(steer) = change::steering(h.turn) {
        m.mode = twin::number_of(steer.mode);
        m.running = steer.running;
    }
    if let Some(k) = change::placing(h.turn) {
        seats(m, k, h.turn);
    }
    h.reply
}

// A number other than 0: the state, memory and the buffer are as they came.
pub fn refusals_keep_all()
    ensures { RefusalsKeepAll }
{}
