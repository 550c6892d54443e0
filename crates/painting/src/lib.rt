// Tables of pages: painted with what runs say, and compared. Written so that a compiler makes fills and wide compares of it.
// Four functions ask that the runs lie in the table (`RunsFit`): a type that holds it would ask more of fields than each of them does.
#![tactic(auto)]

ghost use Rattle.std.specs.Prelude.{◌≡◌, ℕ, ◌≤◌, ◌+◌, eqb};
ghost use Rattle.lists.specs.Below.{all_below};
ghost use Rattle.geometry.specs.Geometry.{most_pages};
ghost use Rattle.painting.specs.Painting.{painted, painted_runs, owned_from, owned_run, alike, RunsFit};

use fields::Fields;
use geometry::Geometry;

// n places from f on become v.
pub fn paint(t: &mut [u8; Geometry::MOST_PAGES], f: usize, n: usize, v: u8)
    requires { f + n ≤ most_pages }
    ensures { t.new ≡ painted t.old f n v }
{
    t[f..f + n].fill(v);
}

// The table has v at n places from f on.
#[tactic(auto, using(lists::proofs::All::bits_none))]
fn run_owned(o: &[u8; Geometry::MOST_PAGES], f: usize, n: usize, v: u8) -> bool
    requires { f + n ≤ most_pages }
    ensures { result ≡ all_below n (owned_from o.now f v) }
{
    let mut bad: u8 = 0; // gathered and asked once, so that a compiler compares whole words
    for x in &o[f..f + n] {
        bad |= *x ^ v;
    }
    bad == 0
}

// The two tables are the same.
#[tactic(auto, using(lists::proofs::All::bits_none, lists::proofs::All::bits_step, lists::proofs::All::xor_zero))]
pub fn same(a: &[u8; Geometry::MOST_PAGES], b: &[u8; Geometry::MOST_PAGES]) -> bool
    ensures { result ≡ all_below most_pages (alike a.now b.now) }
{
    let mut bad: u8 = 0; // gathered and asked once, as above: `==` stops at the first byte that differs
    // By place and no `zip`: the invariant is of the places below p.
    for p in 0..Geometry::MOST_PAGES {
        bad |= a[p] ^ b[p];
    }
    bad == 0
}

// The table has v at every page of the runs.
#[tactic(auto, using(lists::proofs::All::all_none))]
pub fn runs_owned(o: &[u8; Geometry::MOST_PAGES], f: &Fields, v: u8) -> bool
    requires { RunsFit f.now }
    ensures { result ≡ all_below f.now.r (owned_run o.now f.now.runs v) }
{
    // No `all`: what `run_owned` asks of a run, the closure would have to ask too.
    let mut ok = true;
    for x in &f.runs[..f.r] {
        ok &= run_owned(o, x.first as usize, x.count as usize, v);
    }
    ok
}

// The pages of the runs become v.
#[tactic(auto, unfolding(crate::specs::Painting::painted_runs))]
pub fn paint_runs(t: &mut [u8; Geometry::MOST_PAGES], f: &Fields, v: u8)
    requires { RunsFit f.now }
    ensures { t.new ≡ painted_runs t.old f.now.runs v f.now.r }
{
    for x in &f.runs[..f.r] {
        paint(t, x.first as usize, x.count as usize, v);
    }
}
