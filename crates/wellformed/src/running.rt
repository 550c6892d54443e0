// The mode and the running record: zero in legacy mode; in secure mode of the slot that runs, with an entry's output length and an open place for it.
ghost use Rattle.std.specs.Prelude.{◌≡◌, ◌≤◌};
ghost use Rattle.lists.specs.Below.{any_below};
ghost use Rattle.geometry.specs.Geometry.{most_pages};
ghost use Rattle.fields.specs.Fields.{entry_places};
ghost use Rattle.wellformed.specs.WellFormed.{running_zero, output_at};
ghost use Rattle.wellformed.specs.Tests.{out_test, running_test, mode_test};

use fields::Fields;
use geometry::Geometry;
use state::{Card, Mode, Running};

fn running_zero(x: Running) -> bool
    ensures { result ≡ running_zero x }
{
    x == Running::NONE
}

fn any_output(f: &Fields, n: usize) -> bool
    requires { f.now.e ≤ entry_places }
    ensures { result ≡ any_below f.now.e (output_at f.now n) }
{
    f.entries[..f.e].iter().any(|x| x.output as usize == n)
}

// The whole table and P: cut to the P pages, the part would have to be shown to fit where `compared` cuts it, and to say the same as the two do.
fn out_right(owner: &[u8; Geometry::MOST_PAGES], pages: usize, a: usize, n: usize) -> bool
    requires { pages ≤ most_pages }
    ensures { result ≡ out_test owner.now pages a n }
{
    if n == 0 {
        return a == 0;
    }
    if !Geometry::is_range(pages, a, n) {
        return false;
    }
    let p = a / Geometry::PAGE;
    (p < pages) & (owner[p] == 0)
}

fn secure_right(
    k: usize,
    x: Running,
    card: Card,
    owner: &[u8; Geometry::MOST_PAGES],
    pages: usize,
) -> bool
    requires { (pages ≤ most_pages) × (card.fields.e ≤ entry_places) }
    ensures { result ≡ running_test k x card owner.now pages }
{
    let some = any_output(&card.fields, x.length);
    let out = out_right(owner, pages, x.out, x.length);
    ((x.slot == k) & ((k < Geometry::SLOTS) & card.registered)) & (some & out)
}

pub fn mode_right(
    mode: Mode,
    x: Running,
    card: Card,
    owner: &[u8; Geometry::MOST_PAGES],
    pages: usize,
) -> bool
    requires { (pages ≤ most_pages) × (card.fields.e ≤ entry_places) }
    ensures { result ≡ mode_test mode x card owner.now pages }
{
    match mode {
        Mode::Legacy => running_zero(x),
        Mode::Secure(k) => secure_right(k, x, card, owner, pages),
    }
}
