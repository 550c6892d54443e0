// µPCR read: "10, 9. Twenty bytes."
ghost use Rattle.std.specs.Prelude.{◌<◌};
ghost use Rattle.geometry.specs.Geometry.{slot_count};
ghost use Rattle.touch.specs.Carried.{IsSlot, PcrGiven};

use events::{Answer, Refusal};
use geometry::Geometry;
use state::{Slot, State};

// The slot is number k of the state, which the contract alone asks for.
pub fn pcr_read(s: State, k: usize, slot: Slot, buffer: &mut [u8], index: usize) -> Answer
    requires { (k < slot_count) × IsSlot s k slot }
    ensures { PcrGiven s k index buffer.old result buffer.new }
{
    if Geometry::PCRS <= index {
        return Answer::Refused(Refusal::NoSuchPcr);
    }
    if buffer.len() < Geometry::DIGEST {
        return Answer::Refused(Refusal::BufferShort);
    }
    memory::put_bytes(buffer, 0, &slot.pcrs[index].bytes);
    Answer::Filled(Geometry::DIGEST)
}
