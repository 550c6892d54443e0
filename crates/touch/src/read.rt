// Read: "4, 5, and for Read 9". Device read: "the same, any mode, open pages only".
ghost use Rattle.std.specs.Prelude.{◌≡◌, true, length};
ghost use Rattle.geometry.specs.Geometry.{page_of};
ghost use Rattle.state.specs.Face.{face_of, pcrs_of};
ghost use Rattle.wellformed.specs.WellFormed.{well_formed};
ghost use Rattle.rules.specs.Decide.{read_rule};
ghost use Rattle.touch.specs.Carried.{access_of, Asks, Fills};

use crate::pages;
use crate::pages::Access;
use events::{Answer, Refusal};
use geometry::Geometry;
use state::{Slot, State};

pub fn read(
    s: State,
    slot: Slot,
    v: u8,
    access: Access,
    memory: &[u8],
    buffer: &mut [u8],
    address: usize,
    n: usize,
) -> Answer
    requires { (well_formed s (length memory.now) ≡ true) × Asks s slot v access (page_of address) }
    ensures { Fills (read_rule s.mode (face_of s) (access_of access) (length buffer.old) address n) (pcrs_of s) memory.now buffer.old result buffer.new }
{
    if !Geometry::is_range(s.pages, address, n) {
        return Answer::Refused(Refusal::OutOfRange);
    }
    if !pages::may_reach(s, slot, v, access, address / Geometry::PAGE) {
        return Answer::Refused(Refusal::NotReached);
    }
    if buffer.len() < n {
        return Answer::Refused(Refusal::BufferShort);
    }
    memory::give_bytes(memory, address, n, buffer);
    Answer::Filled(n)
}
