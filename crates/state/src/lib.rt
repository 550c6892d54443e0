// The monitor's state, by value (document 01, "Machine and numbers").
#![tactic(auto)]

ghost use Rattle.std.specs.Prelude.{◌≡◌, ◌<◌, ◌==◌, [], find, take};
ghost use Rattle.state.specs.Zero.{zero_slot};
ghost use Rattle.geometry.specs.Geometry.{pcr_count};
ghost use Rattle.fields.specs.Fields.{fields_of};
ghost use Rattle.state.specs.Slots.{entry_found, entry_within, extended_slot};

use fields::{Entry, Fields};
use geometry::Geometry;
use sha_1::Digest;

// What is public of a slot.
#[repr(C)]
#[derive(Clone, Copy)]
pub struct Card {
    pub registered: bool,
    pub mark: u64,
    pub fields: Fields,
}

#[repr(C)]
#[derive(Clone, Copy)]
pub struct Slot {
    pub card: Card,
    pub pcrs: [Digest; Geometry::PCRS],
}

#[derive(Clone, Copy)]
pub enum Mode {
    Legacy,
    Secure(usize),
}

// The running call: its slot, and where its output goes.
#[repr(C)]
#[derive(Clone, Copy, PartialEq, Eq)]
pub struct Running {
    pub slot: usize,
    pub out: usize,
    pub length: usize,
}

impl Running {
    // No call runs: all zero.
    pub const NONE: Running = Running {
        slot: 0,
        out: 0,
        length: 0,
    };
}

// P pages, of which the top M are kept for the monitor.
#[repr(C)]
#[derive(Clone, Copy)]
pub struct State {
    pub pages: usize,
    pub kept: usize,
    pub owner: [u8; Geometry::MOST_PAGES],
    pub slots: [Slot; Geometry::SLOTS],
    pub mode: Mode,
    pub running: Running,
}

impl Slot {
    // "A free slot and unused places are all zero."
    pub fn zero() -> Slot
        ensures { result ≡ zero_slot }
    {
        let pcr = Digest {
            bytes: [0; Geometry::DIGEST],
        };
        Slot {
            card: Card {
                registered: false,
                mark: 0,
                fields: Fields::NONE,
            },
            pcrs: [pcr; Geometry::PCRS],
        }
    }

    pub fn cleared(self) -> Slot
        ensures { result ≡ zero_slot }
    {
        Slot::zero()
    }

    // The µPCR of that number becomes SHA-1 of itself and the digest.
    pub fn extended(self, index: usize, digest: Digest) -> Slot
        requires { index < pcr_count }
        ensures { result ≡ extended_slot self index digest }
    {
        let mut t = self;
        let old = t.pcrs[index];
        let new = sha_1::hash_pair(old, digest);
        t.pcrs[index] = new;
        t
    }

    // The entry in use that has an address, if one has it.
    pub fn entry_found(self, address: usize) -> Option<Entry>
        ensures { result ≡ entry_found self.card address }
    {
        first_at(&self.card.fields.entries, self.card.fields.e, address)
    }
}

// The same of entries that are lent, of which the first e are in use: so a slot that is looked through is not copied.
pub fn first_at(entries: &[Entry; Fields::ENTRIES], e: usize, address: usize) -> Option<Entry>
    ensures { result ≡ entry_within (fields_of 0 e [] entries.now) address }
{
    among(entries, e, address)
}

fn among(entries: &[Entry], e: usize, address: usize) -> Option<Entry>
    ensures { result ≡ find (λ x. x.address == address) (take e entries.now) }
{
    entries
        .iter()
        .take(e)
        .copied()
        .find(|x| x.address as usize == address)
}
