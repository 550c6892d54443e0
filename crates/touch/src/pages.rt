// "Legacy reaches open pages. Secure reaches its own pages, and may not write code pages."
ghost use Rattle.std.specs.Prelude.{◌≡◌, ◌&&◌, ◌+◌, ◌≤◌, ◌<◌, ltb, eqb};
ghost use Rattle.geometry.specs.Geometry.{slot_count};
ghost use Rattle.state.specs.Face.{face_of};
ghost use Rattle.fields.specs.Fields.{run_places};
ghost use Rattle.fields.specs.Rules.{in_code};
ghost use Rattle.rules.specs.Tests.{may_reach};
ghost use Rattle.touch.specs.Carried.{access_of, Asks};

use state::{Mode, Slot, State};

// "Open" means owner 0, of a page of memory; v is the page's owner.
pub fn is_open(pages: usize, v: u8, page: usize) -> bool
    ensures { result ≡ ltb page pages && eqb v 0 }
{
    page < pages && v == 0
}

// That k is below 8 stands in each contract that needs it: a mode and an event hold any number, and a type for those below 8 would be made of it at each use.
pub fn is_own(v: u8, k: usize) -> bool
    requires { k < slot_count }
    ensures { result ≡ eqb v (k + 1) }
{
    usize::from(v) == k + 1
}

// A page of the slot's code runs.
pub fn in_code_of(slot: Slot, page: usize) -> bool
    requires { slot.card.fields.r ≤ run_places }
    ensures { result ≡ in_code slot.card.fields page }
{
    keeps::in_code(&slot.card.fields, page)
}

// Who reaches for a page, and for what: a guest or a codeblock that reads or writes, or a device that does either.
#[derive(Clone, Copy)]
pub enum Access {
    Read,
    Write,
    Device,
}

// The rule, of a page whose owner is v. The slot is the one that runs, which only a write asks for.
pub fn may_reach(s: State, slot: Slot, v: u8, access: Access, page: usize) -> bool
    requires { Asks s slot v access page }
    ensures { result ≡ may_reach s.mode (face_of s) (access_of access) page }
{
    match (access, s.mode) {
        (Access::Read, Mode::Secure(k)) => is_own(v, k),
        (Access::Write, Mode::Secure(k)) => is_own(v, k) & !in_code_of(slot, page),
        (_, Mode::Legacy) | (Access::Device, _) => is_open(s.pages, v, page),
    }
}
