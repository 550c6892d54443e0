// The monitor: one event, the state by value, lent memory and a lent answer buffer; the answer and the next state.
#![tactic(auto)]

ghost use Rattle.std.specs.Prelude.{◌≡◌};
ghost use Rattle.rules.specs.Act as rules;
ghost use Rattle.decide.specs.Allowed.{out_of};

use events::Event;
use state::State;
use touch::Stepped;

// One event, and the next state.
pub fn step(event: Event, payload: &[u8], s: State, memory: &mut [u8], buffer: &mut [u8]) -> Stepped
    ensures { out_of result memory.new buffer.new ≡ rules.step s memory.old event payload.now buffer.old }
{
    let x = decide::looked(event, s);
    let c = decide::decided(event, x, payload, s, memory, buffer);
    Stepped {
        answer: c.answer,
        state: change::changed(s, c),
    }
}
