// Register(mark, payload manifest), legacy. "3, 6, 7." Answer: slot.
ghost use Rattle.std.specs.Prelude.{◌≡◌, true, length};
ghost use Rattle.manifest.specs.Reader.{read_manifest};
ghost use Rattle.state.specs.Face.{face_of};
ghost use Rattle.wellformed.specs.WellFormed.{well_formed};
ghost use Rattle.rules.specs.Decide.{register_rule};
ghost use Rattle.change.specs.Turns.{Settles};

use crate::{free, measure};
use change::Change;
use events::{Answer, Refusal};
use state::State;

pub fn register(s: State, payload: &[u8], memory: &[u8], mark: u64) -> Change
    requires { well_formed s (length memory.now) ≡ true }
    ensures { Settles (register_rule (face_of s) mark (read_manifest payload.now)) payload.now s memory.now result memory.now }
{
    let reading = manifest::read(payload);
    if reading.refusal != 0 {
        return change::kept(Answer::Refused(Refusal::RuleBroken));
    }
    let fields = reading.fields;
    if !free::all_open(s.pages, &s.owner, &fields) {
        return change::kept(Answer::Refused(Refusal::NotOpen));
    }
    let Some(k) = free::free_slot(s) else {
        return change::kept(Answer::Refused(Refusal::NoFreeSlot));
    };
    let digest = measure::measured(memory, &fields);
    change::enrolling(k, mark, fields, digest)
}
