// What the mode says: the slot that runs, and whether an event is allowed.
ghost use Rattle.std.specs.Prelude.{◌≡◌};
ghost use Rattle.decide.specs.Allowed as Allowed;

use events::Event;
use state::Mode;

fn is_legacy(mode: Mode) -> bool
    ensures { result ≡ Allowed.is_legacy mode }
{
    matches!(mode, Mode::Legacy)
}

// The slot that runs; in legacy mode 0.
pub fn slot_in(mode: Mode) -> usize
    ensures { result ≡ Allowed.slot_in mode }
{
    match mode {
        Mode::Legacy => 0,
        Mode::Secure(k) => k,
    }
}

// Check 2: the event is allowed in this mode.
pub fn allowed(mode: Mode, event: Event) -> bool
    ensures { result ≡ Allowed.allowed mode event }
{
    let legacy = is_legacy(mode);
    match event {
        Event::Register { .. } | Event::Unregister { .. } | Event::Call { .. } => legacy,
        Event::Return | Event::Extend { .. } | Event::PcrRead { .. } => !legacy,
        Event::Jump { .. }
        | Event::Read { .. }
        | Event::Write { .. }
        | Event::DeviceRead { .. }
        | Event::DeviceWrite { .. } => true,
    }
}
