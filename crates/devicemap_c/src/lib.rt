// The device map, as host_c gives it to C. It asks nothing of its caller beyond what C owes (host/monitor.h).
#![tactic(auto)]

ghost use Rattle.std.specs.Prelude.{◌≡◌};
ghost use Rattle.twin.specs.Asked.{answered};
ghost use Rattle.devicemap_c.specs.Map.{host_map};

use state::State;
use twin::{Monitor, Reply};

// The device map of the state; or 1, or 9.
pub fn monitor_device_map(m: Monitor, buffer: &mut [u8]) -> Reply
    ensures { answered result buffer.new ≡ host_map m buffer.old }
{
    Reply::from(devicemap::device_map(State::from(m), buffer))
}
