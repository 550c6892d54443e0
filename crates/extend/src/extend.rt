// Extend, in secure mode in slot k. "µPCR new = SHA-1(old, SHA-1(bytes))."
ghost use Rattle.std.specs.Prelude.{◌≡◌, true, ◌<◌, length};
ghost use Rattle.geometry.specs.Geometry.{slot_count, page_of};
ghost use Rattle.state.specs.Face.{face_of};
ghost use Rattle.wellformed.specs.WellFormed.{well_formed};
ghost use Rattle.rules.specs.Decide.{source_right, source_reached, extend_rule};
ghost use Rattle.touch.specs.Carried.{Owned};
ghost use Rattle.change.specs.Turns.{Settles};

use change::Change;
use events::{Answer, Refusal};
use geometry::Geometry;
use memory::Source;
use state::State;
use touch::pages;

// "all of it, at most 4,096, else 4"; "Memory length 0 hashes no bytes and the address isn't looked at."
fn source_right(s: State, source: Source, size: usize, address: usize, n: usize) -> bool
    ensures { result ≡ source_right (face_of s) source size address n }
{
    match source {
        Source::Payload => size <= Geometry::PAGE,
        Source::Memory => { n == 0 || Geometry::is_range(s.pages, address, n) }
    }
}

fn source_reached(s: State, v: u8, k: usize, source: Source, address: usize, n: usize) -> bool
    requires { (k < slot_count) × Owned s (page_of address) v }
    ensures { result ≡ source_reached (face_of s) k source address n }
{
    match source {
        Source::Payload => true,
        Source::Memory => { n == 0 || pages::is_own(v, k) }
    }
}

pub fn extend<'a>(
    s: State,
    v: u8,
    payload: &'a [u8],
    memory: &'a [u8],
    k: usize,
    index: usize,
    source: Source,
    address: usize,
    n: usize,
) -> Change
    requires { (well_formed s (length memory.now) ≡ true) × ((k < slot_count) × Owned s (page_of address) v) }
    ensures { Settles (extend_rule (face_of s) k (length payload.now) index source address n) payload.now s memory.now result memory.now }
{
    if Geometry::PCRS <= index {
        return change::kept(Answer::Refused(Refusal::NoSuchPcr));
    }
    if !source_right(s, source, payload.len(), address, n) {
        return change::kept(Answer::Refused(Refusal::OutOfRange));
    }
    if !source_reached(s, v, k, source, address, n) {
        return change::kept(Answer::Refused(Refusal::NotReached));
    }
    let from = switch::kept_as(n, address);
    let part = memory::chosen(payload, memory, source, from, n);
    let digest = sha_1::hash(part);
    change::extending(k, index, digest)
}
