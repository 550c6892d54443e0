// Where each event looks, so that the state is looked at once.
ghost use Rattle.std.specs.Prelude.{◌≡◌};
ghost use Rattle.decide.specs.Looks as Looks;

use crate::Look;
use events::Event;
use geometry::Geometry;

fn at(slot: usize, page: usize) -> Look
    ensures { result ≡ Looks.at slot page }
{
    Look {
        slot,
        page,
        other: 0,
    }
}

// k is the slot that runs.
pub fn looks(event: Event, k: usize) -> Look
    ensures { result ≡ Looks.looks event k }
{
    match event {
        Event::Register { .. } | Event::Return | Event::PcrRead { .. } => at(k, 0),
        Event::Unregister { slot, .. } => at(slot, 0),
        Event::Call { input, output, .. } => {
            Look {
                slot: k,
                page: input / Geometry::PAGE,
                other: output / Geometry::PAGE,
            }
        }
        Event::Jump { address }
        | Event::Read { address, .. }
        | Event::Write { address }
        | Event::DeviceRead { address, .. }
        | Event::DeviceWrite { address }
        | Event::Extend { address, .. } => at(k, address / Geometry::PAGE),
    }
}
