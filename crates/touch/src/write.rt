// Write: "4, 5". Device write: "the same, any mode, open pages only".
ghost use Rattle.std.specs.Prelude.{◌≡◌, true, length};
ghost use Rattle.geometry.specs.Geometry.{page_of};
ghost use Rattle.state.specs.Face.{face_of};
ghost use Rattle.wellformed.specs.WellFormed.{well_formed};
ghost use Rattle.rules.specs.Decide.{write_rule};
ghost use Rattle.touch.specs.Carried.{access_of, Asks, Stores};

use crate::pages;
use crate::pages::Access;
use events::{Answer, Refusal};
use geometry::Geometry;
use state::{Slot, State};

pub fn write(
    s: State,
    slot: Slot,
    v: u8,
    access: Access,
    memory: &mut [u8],
    payload: &[u8],
    address: usize,
) -> Answer
    requires { (well_formed s (length memory.old) ≡ true) × Asks s slot v access (page_of address) }
    ensures { Stores (write_rule s.mode (face_of s) (access_of access) address (length payload.now)) payload.now memory.old result memory.new }
{
    if !Geometry::is_range(s.pages, address, payload.len()) {
        return Answer::Refused(Refusal::OutOfRange);
    }
    if !pages::may_reach(s, slot, v, access, address / Geometry::PAGE) {
        return Answer::Refused(Refusal::NotReached);
    }
    memory::put_bytes(memory, address, payload);
    Answer::Done
}
