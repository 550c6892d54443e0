// Whether the pages of runs are open, and which slot is free.
ghost use Rattle.std.specs.Prelude.{◌≡◌, ◌&&◌, not, position};
ghost use Rattle.lists.specs.Below.{all_below};
ghost use Rattle.lists.specs.Places.{if_below};
ghost use Rattle.geometry.specs.Geometry.{slot_count};
ghost use Rattle.fields.specs.Pages.{pages_under};
ghost use Rattle.painting.specs.Painting.{RunsFit, owned_run};
ghost use Rattle.state.specs.Face.{face_of};
ghost use Rattle.rules.specs.Tests.{free_slot};

use fields::Fields;
use geometry::Geometry;
use state::{Slot, State};

fn all_under(pages: usize, f: &Fields) -> bool
    requires { RunsFit f.now }
    ensures { result ≡ pages_under f.now pages }
{
    f.runs[..f.r].iter().all(|x| keeps::run_end(*x) <= pages)
}

// Every page of the runs is open.
pub fn all_open(pages: usize, owner: &[u8; Geometry::MOST_PAGES], f: &Fields) -> bool
    requires { RunsFit f.now }
    ensures { result ≡ pages_under f.now pages && all_below f.now.r (owned_run owner.now f.now.runs 0) }
{
    let under = all_under(pages, f);
    let open = painting::runs_owned(owner, f, 0);
    under & open
}

// The place of the first free slot.
fn place_free(slots: &[Slot; Geometry::SLOTS]) -> Option<usize>
    ensures { result ≡ position (λ x. not x.card.registered) slots.now }
{
    slots.iter().position(|slot| !slot.card.registered)
}

// "Takes the lowest free slot", if there is one.
pub fn free_slot(s: State) -> Option<usize>
    ensures { result ≡ if_below slot_count (free_slot (face_of s)) }
{
    place_free(&s.slots)
}
