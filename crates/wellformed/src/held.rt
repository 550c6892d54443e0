// What a slot holds: a free one is zero, a registered one keeps the rules, and its pages lie under the monitor's.
ghost use Rattle.std.specs.Prelude.{◌≡◌, ◌&&◌, eqb};
ghost use Rattle.lists.specs.Below.{all_below};
ghost use Rattle.geometry.specs.Geometry.{digest_size};
ghost use Rattle.fields.specs.Rules.{keeps_rules};
ghost use Rattle.fields.specs.Pages.{pages_under};
ghost use Rattle.wellformed.specs.WellFormed.{fields_zero, byte_zero_at, pcrs_zero};
ghost use Rattle.wellformed.specs.Tests.{slot_right};

use fields::Fields;
use geometry::Geometry;
use sha_1::Digest;
use state::Slot;

// ---- free slots: every place is unused, every byte zero
// Zero where each byte is. A byte, and not a test: those of all eight are gathered as whole vectors (docs/SPEED.md), and no branch hangs on one.
fn pcr_bits(x: &Digest) -> u8
    ensures { eqb result 0 ≡ all_below digest_size (byte_zero_at x.now) }
{
    let mut bits: u8 = 0;
    for b in &x.bytes {
        bits |= *b;
    }
    bits
}

fn pcrs_zero(pcrs: &[Digest; Geometry::PCRS]) -> bool
    ensures { result ≡ pcrs_zero pcrs.now }
{
    let mut bits: u8 = 0;
    for x in pcrs {
        bits |= pcr_bits(x);
    }
    bits == 0
}

fn free_right(mark: u64, f: &Fields, pcrs: &[Digest; Geometry::PCRS]) -> bool
    ensures { result ≡ (eqb mark 0 && fields_zero f.now) && pcrs_zero pcrs.now }
{
    // A test each, so that the compiler knows both counts as 0 below and takes all places as whole words: as one it takes 1.3 times as long.
    if mark != 0 {
        return false;
    }
    if f.r != 0 {
        return false;
    }
    if f.e != 0 {
        return false;
    }
    let unused = keeps::unused_zero(f);
    let zero = pcrs_zero(pcrs);
    unused & zero
}

// ---- registered slots
// Runs rise, so that the last one ends highest.
fn used_right(f: &Fields, top: usize) -> bool
    ensures { result ≡ keeps_rules f.now && pages_under f.now top }
{
    if !keeps::keeps_rules(f) {
        return false;
    }
    keeps::run_end(f.runs[f.r - 1]) <= top
}

pub fn slot_right(x: &Slot, top: usize) -> bool
    ensures { result ≡ slot_right x.now top }
{
    if x.card.registered {
        return used_right(&x.card.fields, top);
    }
    free_right(x.card.mark, &x.card.fields, &x.pcrs)
}
