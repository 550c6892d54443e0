// Call: "8; then 4, in range before out range; then 5 unless both pages are open". The input goes to the start of the param page.
ghost use Rattle.std.specs.Prelude.{◌≡◌, true, ◌&&◌, ◌<◌, ◌≤◌, length, eqb, ltb};
ghost use Rattle.geometry.specs.Geometry.{slot_count, half_page, is_range, page_of};
ghost use Rattle.state.specs.Face.{face_of, card_at};
ghost use Rattle.wellformed.specs.WellFormed.{well_formed};
ghost use Rattle.rules.specs.Tests.{unlooked};
ghost use Rattle.rules.specs.Decide.{call_rule, call_entry};
ghost use Rattle.touch.specs.Carried.{Owned, IsSlot};
ghost use Rattle.change.specs.Turns.{Acts};

use crate::places;
use crate::places::Sought;
use change::{Change, Turn};
use events::{Answer, Refusal};
use fields::Entry;
use geometry::Geometry;
use state::State;
use touch::pages;

// A range, where it is looked at.
fn in_range(pages: usize, address: usize, n: usize) -> bool
    ensures { result ≡ unlooked n (is_range pages address n) }
{
    n == 0 || Geometry::is_range(pages, address, n)
}

// On an open page, where it is looked at; v is the page's owner.
fn on_open(pages: usize, v: u8, address: usize, n: usize) -> bool
    ensures { result ≡ unlooked n (ltb (page_of address) pages && eqb v 0) }
{
    n == 0 || pages::is_open(pages, v, address / Geometry::PAGE)
}

fn call_entry(
    s: State,
    from: u8,
    to: u8,
    memory: &mut [u8],
    found: Sought,
    x: Entry,
    input: usize,
    output: usize,
) -> Change
    requires { (well_formed s (length memory.old) ≡ true) × ((Owned s (page_of input) from × Owned s (page_of output) to) × (((found.k < slot_count) × IsSlot s found.k found.slot) × (((card_at (face_of s) found.k).registered ≡ true) × (x.input ≤ half_page)))) }
    ensures { Acts (call_entry (face_of s) found.k x input output) s memory.old result memory.new }
{
    let n = x.input as usize;
    let m = x.output as usize;
    if !in_range(s.pages, input, n) {
        return change::kept(Answer::Refused(Refusal::OutOfRange));
    }
    if !in_range(s.pages, output, m) {
        return change::kept(Answer::Refused(Refusal::OutOfRange));
    }
    if !on_open(s.pages, from, input, n) {
        return change::kept(Answer::Refused(Refusal::NotReached));
    }
    if !on_open(s.pages, to, output, m) {
        return change::kept(Answer::Refused(Refusal::NotReached));
    }
    let k = found.k;
    memory::move_bytes(
        memory,
        switch::kept_as(n, input),
        places::param_start(&found.slot.card.fields),
        n,
    );
    let mut running = s.running;
    switch::monitor_enter(&mut running, k, output, m);
    change::turned(Answer::Entered(k), Turn::Enters(running))
}

// `from` and `to` are the owners of the pages where input and output begin.
pub fn call(
    s: State,
    from: u8,
    to: u8,
    memory: &mut [u8],
    mark: u64,
    address: usize,
    input: usize,
    output: usize,
) -> Change
    requires { (well_formed s (length memory.old) ≡ true) × (Owned s (page_of input) from × Owned s (page_of output) to) }
    ensures { Acts (call_rule (face_of s) mark address input output) s memory.old result memory.new }
{
    let Some(found) = places::slot_for(s, mark, address) else {
        return change::kept(Answer::Refused(Refusal::NotFound));
    };
    match found.slot.entry_found(address) {
        Some(x) => call_entry(s, from, to, memory, found, x, input, output),
        None => change::kept(Answer::Refused(Refusal::NotFound)),
    }
}
