// The decision: what an event looks at in the state, checks 1 and 2, and the event's own function.
#![tactic(auto)]

mod looks; // where each event looks
mod modes; // the slot that runs; check 2

ghost use Rattle.std.specs.Prelude.{◌≡◌, true, length};
ghost use Rattle.manifest.specs.Reader.{read_manifest};
ghost use Rattle.state.specs.Face.{face_of, pcrs_of};
ghost use Rattle.wellformed.specs.WellFormed.{well_formed};
ghost use Rattle.rules.specs.Decide.{rule_in};
ghost use Rattle.rules.specs.Act.{act};
ghost use Rattle.rules.specs.Act as rules;
ghost use Rattle.decide.specs.Allowed as Allowed;
ghost use Rattle.decide.specs.Looks as Looks;

use change::{Change, kept};
use enroll::register;
use events::{Answer, Event, Refusal};
use geometry::Geometry;
use release::{jump, unregister};
use state::{Mode, State};
use touch::pages::Access;
use touch::{pcr_read, read, write};
use wellformed::Sight;

// What an event looks at: a slot, and two pages. One that looks at fewer has any number there: the test hands out a slot and two owners each time
// (`wellformed::Sight`), and no branch is spent on leaving one out.
#[derive(Clone, Copy)]
pub struct Look {
    pub slot: usize,
    pub page: usize,
    pub other: usize,
}

// Where the event looks.
pub fn looking(event: Event, mode: Mode) -> Look
    ensures { result ≡ Looks.looking event mode }
{
    looks::looks(event, modes::slot_in(mode))
}

// What the event looks at in the state, if that is well formed.
pub fn looked(event: Event, s: State) -> Option<Sight>
    ensures { result ≡ Looks.looked event s }
{
    let look = looking(event, s.mode);
    wellformed::seen(s, look.slot, look.page, look.other)
}

// The events in document 01's order, each by the function of its name; `kept` where the state stays.
fn dispatch(
    event: Event,
    payload: &[u8],
    s: State,
    x: Sight,
    memory: &mut [u8],
    buffer: &mut [u8],
) -> Change
    requires { (well_formed s (length memory.old) ≡ true) × ((Allowed.allowed s.mode event ≡ true) × Looks.Sees s event x) }
    ensures { Allowed.Comes s result memory.new buffer.new (act (rule_in s.mode (face_of s) (length buffer.old) (length payload.now) (read_manifest payload.now) event) payload.now buffer.old (pcrs_of s) memory.old) }
{
    let k = modes::slot_in(s.mode);
    let slot = x.slot;
    let v = x.page;
    match event {
        Event::Register { mark } => register::register(s, payload, memory, mark),
        Event::Unregister { mark, slot: n } => unregister::unregister(s, slot, memory, mark, n),
        Event::Call {
            mark,
            address,
            input,
            output,
        } => call::call::call(s, v, x.other, memory, mark, address, input, output),
        Event::Return => call::return_::return_(s, slot, memory, k),
        Event::Jump { address } => jump::jump(s, slot, v, memory, address),
        Event::Read { address, length } => {
            kept(read::read(s, slot, v, Access::Read, memory, buffer, address, length))
        }
        Event::Write { address } => {
            kept(write::write(s, slot, v, Access::Write, memory, payload, address))
        }
        Event::DeviceRead { address, length } => {
            kept(read::read(s, slot, v, Access::Device, memory, buffer, address, length))
        }
        Event::DeviceWrite { address } => {
            kept(write::write(s, slot, v, Access::Device, memory, payload, address))
        }
        Event::Extend {
            index,
            source,
            address,
            length,
        } => extend::extend::extend(s, v, payload, memory, k, index, source, address, length),
        Event::PcrRead { index } => kept(pcr_read::pcr_read(s, k, slot, buffer, index)),
    }
}

// One event, by what it saw: its answer, what it does to memory and the buffer, and what becomes of the state. "Check 1 comes first, then 2, then the
// order shown."
pub fn decided(
    event: Event,
    seen: Option<Sight>,
    payload: &[u8],
    s: State,
    memory: &mut [u8],
    buffer: &mut [u8],
) -> Change
    requires { seen ≡ Looks.looked event s }
    ensures { Allowed.Comes s result memory.new buffer.new (rules.step s memory.old event payload.now buffer.old) }
{
    let Some(x) = seen else {
        return kept(Answer::Refused(Refusal::NotWellFormed));
    };
    if memory.len() != Geometry::start_of(s.pages) {
        return kept(Answer::Refused(Refusal::NotWellFormed));
    }
    if !modes::allowed(s.mode, event) {
        return kept(Answer::Refused(Refusal::NotInThisMode));
    }
    dispatch(event, payload, s, x, memory, buffer)
}
