// Unregister: "8 (slot above 7, free, or mark differs). Releases it."
ghost use Rattle.std.specs.Prelude.{◌≡◌, true, length, ◌<◌};
ghost use Rattle.geometry.specs.Geometry.{slot_count};
ghost use Rattle.state.specs.Face.{face_of};
ghost use Rattle.wellformed.specs.WellFormed.{well_formed};
ghost use Rattle.rules.specs.Tests.{under_mark};
ghost use Rattle.rules.specs.Decide.{unregister_rule};
ghost use Rattle.touch.specs.Carried.{IsSlot};
ghost use Rattle.change.specs.Turns.{Acts};

use crate::release;
use change::Change;
use events::{Answer, Refusal};
use geometry::Geometry;
use state::{Slot, State};

// The slot is registered under the mark.
fn is_under(slot: &Slot, mark: u64) -> bool
    ensures { result ≡ under_mark slot.now.card mark }
{
    slot.card.registered && slot.card.mark == mark
}

// The slot is number k of the state, if there is one of that number.
pub fn unregister(s: State, slot: Slot, memory: &mut [u8], mark: u64, k: usize) -> Change
    requires { (well_formed s (length memory.old) ≡ true) × (k < slot_count → IsSlot s k slot) }
    ensures { Acts (unregister_rule (face_of s) mark k) s memory.old result memory.new }
{
    if Geometry::SLOTS <= k {
        return change::kept(Answer::Refused(Refusal::NotFound));
    }
    if is_under(&slot, mark) {
        return release::release(memory, &slot.card.fields, k, Answer::Done);
    }
    change::kept(Answer::Refused(Refusal::NotFound))
}
