// Start, as host_c gives it to C, over a lent state. It asks nothing of its caller beyond what C owes (host/monitor.h).
#![tactic(auto)]

ghost use Rattle.std.specs.Prelude.{◌≡◌};
ghost use Rattle.start_c.specs.Start.{host_start};

use twin::Monitor;

// Start: the fresh state, or 4 and the all-zero state.
pub fn monitor_start(m: &mut Monitor, pages: usize, kept: usize) -> u8
    ensures { (result ≡ (host_start pages kept).number) × (m.new ≡ (host_start pages kept).monitor) }
{
    let s = start::start(pages, kept);
    *m = Monitor::from(s.state);
    s.refusal.map_or(0, u8::from)
}
