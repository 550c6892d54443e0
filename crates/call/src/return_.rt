// Return: "n bytes from offset 2,048 of the param page go to the out address. Mode legacy, running record zero. Answer: left, n."
ghost use Rattle.std.specs.Prelude.{◌≡◌, true, length};
ghost use Rattle.state.specs.Face.{face_of};
ghost use Rattle.wellformed.specs.WellFormed.{well_formed};
ghost use Rattle.rules.specs.Decide.{return_rule};
ghost use Rattle.touch.specs.Carried.{IsSlot};
ghost use Rattle.change.specs.Turns.{Acts};

use crate::places;
use change::{Change, Turn};
use events::Answer;
use geometry::Geometry;
use state::{Mode, Slot, State};

// The slot is the one that runs, number k.
pub fn return_(s: State, slot: Slot, memory: &mut [u8], k: usize) -> Change
    requires { (well_formed s (length memory.old) ≡ true) × ((s.mode ≡ Mode.Secure k) × IsSlot s k slot) }
    ensures { Acts (return_rule (face_of s) k) s memory.old result memory.new }
{
    let mut rest = s.running;
    let was = switch::monitor_leave(&mut rest);
    let from = places::param_start(&slot.card.fields) + Geometry::HALF;
    memory::move_bytes(memory, from, was.out, was.length);
    change::turned(Answer::Left(was.length), Turn::Leaves(rest))
}
