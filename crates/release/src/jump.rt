// Jump: "Legacy: 4 if outside memory, 5 unless open. Secure: on a code page of its own, done; anywhere else, beyond memory too, it is released".
ghost use Rattle.std.specs.Prelude.{◌≡◌, true, ◌&&◌, ◌+◌, ◌≤◌, ◌<◌, eqb, length};
ghost use Rattle.geometry.specs.Geometry.{slot_count, page_of};
ghost use Rattle.fields.specs.Fields.{run_places};
ghost use Rattle.fields.specs.Rules.{in_code};
ghost use Rattle.state.specs.Face.{face_of};
ghost use Rattle.wellformed.specs.WellFormed.{well_formed};
ghost use Rattle.rules.specs.Decide.{jump_legacy, jump_secure, by_mode};
ghost use Rattle.touch.specs.Carried.{Owned, IsSlot, Runs};
ghost use Rattle.change.specs.Turns.{Acts};

use crate::release;
use change::Change;
use events::{Answer, Refusal};
use geometry::Geometry;
use state::{Mode, Slot, State};
use touch::pages;

fn jump_legacy(s: State, v: u8, address: usize) -> Answer
    requires { Owned s (page_of address) v }
    ensures { result ≡ (jump_legacy (face_of s) address).answer }
{
    let page = address / Geometry::PAGE;
    if s.pages <= page {
        return Answer::Refused(Refusal::OutOfRange);
    }
    if v != 0 {
        return Answer::Refused(Refusal::NotReached);
    }
    Answer::Done
}

// On a code page of the slot, which is number k.
fn on_own_code(slot: Slot, v: u8, k: usize, page: usize) -> bool
    requires { (k < slot_count) × (slot.card.fields.r ≤ run_places) }
    ensures { result ≡ eqb v (k + 1) && in_code slot.card.fields page }
{
    pages::is_own(v, k) && pages::in_code_of(slot, page)
}

fn jump_secure(s: State, slot: Slot, v: u8, memory: &mut [u8], k: usize, address: usize) -> Change
    requires { (well_formed s (length memory.old) ≡ true) × ((k < slot_count) × (Owned s (page_of address) v × IsSlot s k slot)) }
    ensures { Acts (jump_secure (face_of s) k address) s memory.old result memory.new }
{
    if on_own_code(slot, v, k, address / Geometry::PAGE) {
        return change::kept(Answer::Done);
    }
    release::release(memory, &slot.card.fields, k, Answer::Terminated(k))
}

pub fn jump(s: State, slot: Slot, v: u8, memory: &mut [u8], address: usize) -> Change
    requires { (well_formed s (length memory.old) ≡ true) × (Owned s (page_of address) v × Runs s slot) }
    ensures { Acts (by_mode s.mode (jump_legacy (face_of s) address) (λ k. jump_secure (face_of s) k address)) s memory.old result memory.new }
{
    match s.mode {
        Mode::Legacy => {
            let answer = jump_legacy(s, v, address);
            change::kept(answer)
        },
        Mode::Secure(k) => jump_secure(s, slot, v, memory, k, address),
    }
}
