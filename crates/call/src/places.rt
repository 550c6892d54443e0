// Which slot and entry a call names, and where the param page is.
ghost use Rattle.std.specs.Prelude.{◌≡◌, true, ◌≤◌, ◌<◌, position};
ghost use Rattle.lists.specs.Below.{any_below};
ghost use Rattle.geometry.specs.Geometry.{start_of, most_pages};
ghost use Rattle.fields.specs.Fields.{run_places};
ghost use Rattle.fields.specs.Pages.{is_param_at, param_of};
ghost use Rattle.state.specs.Face.{face_of};
ghost use Rattle.wellformed.specs.WellFormed.{state_right};
ghost use Rattle.rules.specs.Tests.{slot_for};
ghost use Rattle.call.specs.Sought.{callable_in, sought_in};

use fields::Fields;
use geometry::Geometry;
use state::{Slot, State};

// The slot is registered under the mark, and has an entry at the address.
#[tactic(auto, unfolding(state::specs::Slots::entry_found))]
fn callable(slot: &Slot, mark: u64, address: usize) -> bool
    ensures { result ≡ callable_in slot.now.card mark address }
{
    let fields = &slot.card.fields;
    slot.card.registered
        && slot.card.mark == mark
        && state::first_at(&fields.entries, fields.e, address).is_some()
}

// The place of the first such slot.
fn place_for(slots: &[Slot; Geometry::SLOTS], mark: u64, address: usize) -> Option<usize>
    ensures { result ≡ position (λ x. callable_in x.card mark address) slots.now }
{
    slots.iter().position(|slot| callable(slot, mark, address))
}

// A slot and its number.
#[derive(Clone, Copy)]
pub struct Sought {
    pub k: usize,
    pub slot: Slot,
}

// The lowest such slot, if there is one.
pub fn slot_for(s: State, mark: u64, address: usize) -> Option<Sought>
    requires { state_right s ≡ true }
    ensures { result ≡ sought_in s (slot_for (face_of s) mark address) }
{
    let k = place_for(&s.slots, mark, address)?;
    Some(Sought {
        k,
        slot: s.slots[k],
    })
}

// The param page of fields that have one. By `find` the answer would have to be unwrapped, and the proof to say twice which run it is.
pub fn param_of(f: &Fields) -> usize
    requires { (f.now.r ≤ run_places) × (any_below f.now.r (is_param_at f.now) ≡ true) }
    ensures { result ≡ param_of f.now }
{
    for x in &f.runs[..f.r] {
        if x.is_param() {
            return x.first as usize;
        }
    }
    unreachable!()
}

// Where the param page begins.
pub fn param_start(f: &Fields) -> usize
    requires { (f.now.r ≤ run_places) × ((any_below f.now.r (is_param_at f.now) ≡ true) × (param_of f.now < most_pages)) }
    ensures { result ≡ start_of (param_of f.now) }
{
    param_of(f) * Geometry::PAGE
}
