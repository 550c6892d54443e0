// Start: the fresh state of P pages, M of them the monitor's (document 01, "Machine and numbers").
#![tactic(auto)]

ghost use Rattle.std.specs.Prelude.{◌≡◌, ◌≤◌, ◌<◌, ◌+◌};
ghost use Rattle.lists.specs.Below.{table};
ghost use Rattle.geometry.specs.Geometry.{most_pages};
ghost use Rattle.start.specs.Start.{fresh_owner, bare, start_of};
ghost use Rattle.start.specs.Promise.{Accepts, Refuses};

use events::Refusal;
use geometry::Geometry;
use state::{Mode, Running, Slot, State};

// A state, or the refusal. It is no Result, since a refusal comes with a state too, all zero: `start::refuses` holds it.
#[derive(Clone, Copy)]
pub struct Started {
    pub refusal: Option<Refusal>,
    pub state: State,
}

// The first pages are open, the top m the monitor's; places from p on are 0.
fn fresh_owner(p: usize, m: usize) -> [u8; Geometry::MOST_PAGES]
    requires { (m ≤ p) × (p ≤ most_pages) }
    ensures { result ≡ table (fresh_owner p m) most_pages }
{
    let mut owner = [0u8; Geometry::MOST_PAGES];
    painting::paint(&mut owner, p - m, m, wellformed::MONITORS);
    owner
}

fn bare_state(p: usize, m: usize, owner: [u8; Geometry::MOST_PAGES]) -> State
    ensures { result ≡ bare p m owner }
{
    let free = Slot::zero();
    State {
        pages: p,
        kept: m,
        owner,
        slots: [free; Geometry::SLOTS],
        mode: Mode::Legacy,
        running: Running::NONE,
    }
}

pub fn start(pages: usize, kept: usize) -> Started
    ensures { result ≡ start_of pages kept }
{
    if wellformed::sizes_right(pages, kept) {
        let owner = fresh_owner(pages, kept);
        let fresh = bare_state(pages, kept, owner);
        return Started {
            refusal: None,
            state: fresh,
        };
    }
    let none = bare_state(0, 0, [0u8; Geometry::MOST_PAGES]);
    Started {
        refusal: Some(Refusal::OutOfRange),
        state: none,
    }
}

// What start promises beyond its contract, held by name.
pub fn accepts()
    ensures { Accepts }
{}

pub fn refuses()
    ensures { Refuses }
{}
