// Whether a state is well formed (document 01, "Machine and numbers"). Every event asks it, so it is written to be fast: one loop reads each slot once
// and paints what it says into a table, and the table is compared with the owner table. The state is lent part by part, so that no callee copies it.
#![tactic(auto)]

mod held; // what a slot holds
mod running; // the mode and the running record

ghost use Rattle.std.specs.Prelude.{◌≡◌, ◌<◌, ◌≤◌, get_or};
ghost use Rattle.geometry.specs.Geometry.{most_pages, slot_count};
ghost use Rattle.fields.specs.Fields.{entry_places};
ghost use Rattle.wellformed.specs.WellFormed.{sizes_right, state_right, well_formed};
ghost use Rattle.wellformed.specs.Seen.{state_in, all_seen, seen_of};
ghost use Rattle.wellformed.specs.Steps.{begun_of, begun_table, tried_of, tried_table, running_card, compared_of};

use geometry::Geometry;
use state::{Mode, Running, Slot, State};

// The owner of the monitor's pages.
pub const MONITORS: u8 = 255;

pub fn sizes_right(p: usize, m: usize) -> bool
    ensures { result ≡ sizes_right p m }
{
    ((Geometry::LEAST_PAGES <= p) & (p <= Geometry::MOST_PAGES)) & ((1 <= m) & (m < p))
}

// ---- what the test goes over, and what it hands out
// A state's parts where they stand, so that no state is copied to be tested.
#[derive(Clone, Copy)]
pub struct Parts<'a> {
    pub pages: usize,
    pub kept: usize,
    pub owner: &'a [u8; Geometry::MOST_PAGES],
    pub slots: &'a [Slot; Geometry::SLOTS],
    pub mode: Mode,
    pub running: Running,
}

// What an event looks at, handed out by the test: a slot, and the owners of two pages.
#[derive(Clone, Copy)]
pub struct Sight {
    pub slot: Slot,
    pub page: u8,
    pub other: u8,
}

fn owner_of(owner: &[u8; Geometry::MOST_PAGES], page: usize) -> u8
    ensures { result ≡ get_or owner.now page 0 }
{
    owner.get(page).copied().unwrap_or(0)
}

// Slot n (counted round from 8 on), and the owners of the two pages.
fn handed(state: &Parts, n: usize, page: usize, other: usize) -> Sight
    ensures { result ≡ all_seen (state_in state.now) n page other }
{
    Sight {
        slot: state.slots[n % Geometry::SLOTS],
        page: owner_of(state.owner, page),
        other: owner_of(state.owner, other),
    }
}

// ---- the test, in three steps
// The sizes; the monitor's pages are painted. What it gives is the first of them.
fn begun(pages: usize, kept: usize, t: &mut [u8; Geometry::MOST_PAGES]) -> Option<usize>
    ensures { (result ≡ begun_of pages kept) × (t.new ≡ begun_table pages kept t.old) }
{
    if !sizes_right(pages, kept) {
        return None;
    }
    let top = pages - kept;
    painting::paint(t, top, kept, MONITORS);
    Some(top)
}

// Slot k: its rules, and whether its pages are its own; they are painted.
fn tried(
    x: &Slot,
    k: usize,
    top: usize,
    owner: &[u8; Geometry::MOST_PAGES],
    t: &mut [u8; Geometry::MOST_PAGES],
) -> bool
    requires { (k < slot_count) × (top ≤ most_pages) }
    ensures { (result ≡ tried_of x.now k top owner.now) × (t.new ≡ tried_table x.now k top t.old) }
{
    if !held::slot_right(x, top) {
        return false;
    }
    if !x.card.registered {
        return true;
    }
    let v = (k + 1) as u8;
    painting::paint_runs(t, &x.card.fields, v);
    painting::runs_owned(owner, &x.card.fields, v)
}

// The table, the mode and the running record.
fn compared(state: &Parts, t: &[u8; Geometry::MOST_PAGES]) -> bool
    requires { (state.now.pages ≤ most_pages) × ((running_card (state_in state.now)).fields.e ≤ entry_places) }
    ensures { result ≡ compared_of (state_in state.now) t.now }
{
    let card = state.slots[state.running.slot % Geometry::SLOTS].card;
    let same = painting::same(t, state.owner);
    let right = running::mode_right(state.mode, state.running, card, state.owner, state.pages);
    same & right
}

// What is seen of a state that is well formed; of another nothing is told. Always inlined, so that its table takes no stack under what the caller does next.
#[inline(always)]
pub fn seen_in(state: &Parts, n: usize, page: usize, other: usize) -> Option<Sight>
    ensures { result ≡ seen_of (state_in state.now) n page other }
{
    let mut t = [0u8; Geometry::MOST_PAGES];
    let top = begun(state.pages, state.kept, &mut t)?;
    for (k, x) in state.slots.iter().enumerate() {
        if !tried(x, k, top, state.owner, &mut t) {
            return None;
        }
    }
    if compared(state, &t) {
        return Some(handed(state, n, page, other));
    }
    None
}

// A state's parts.
fn parts_of(s: &State) -> Parts
    ensures { state_in result ≡ s.now }
{
    Parts {
        pages: s.pages,
        kept: s.kept,
        owner: &s.owner,
        slots: &s.slots,
        mode: s.mode,
        running: s.running,
    }
}

pub fn seen(s: State, n: usize, page: usize, other: usize) -> Option<Sight>
    ensures { result ≡ seen_of s n page other }
{
    seen_in(&parts_of(&s), n, page, other)
}

pub fn state_right(s: State) -> bool
    ensures { result ≡ state_right s }
{
    seen_in(&parts_of(&s), 0, 0, 0).is_some()
}

pub fn well_formed(s: State, length: usize) -> bool
    ensures { result ≡ well_formed s length }
{
    if !state_right(s) {
        return false;
    }
    length == Geometry::start_of(s.pages)
}
