// The rules on a manifest's fields, tested: each rule at one place, for the reader, the writer and the state's well-formedness.
// The fields are lent, so that nothing is copied; runs and entries are gone over once each.
#![tactic(auto)]

ghost use Rattle.std.specs.Prelude.{◌≡◌, ◌&&◌, [], ◌≤◌, ◌<◌, leb};
ghost use Rattle.lists.specs.Below.{pick};
ghost use Rattle.fields.specs.Fields.{fields_of, end_of};
ghost use Rattle.fields.specs.Rules.{counts_right, is_param, run_right, runs_right, is_code, holds, in_code, lengths_right, entries_right, unused_zero, keeps_rules};

use fields::{Entry, Fields, Run};
use geometry::Geometry;

// ---- counts: two numbers, since the reader tests them in the trailer, before there are fields
pub fn counts_right(r: usize, e: usize) -> bool
    ensures { result ≡ counts_right (fields_of r e [] []) }
{
    ((2 <= r) & (r <= Fields::RUNS)) & ((1 <= e) & (e <= Fields::ENTRIES))
}

// ---- runs. Those below ask that r and e are within the places: `counts_right` has it, and a type for it would be made in that one test alone.

// 1 code, 2 data, 3 stack, 4 param: document 01's form, a match by a range.
fn known_kind(kind: u8) -> bool
    ensures { result ≡ leb 1 kind && leb kind 4 }
{
    match kind {
        1..=4 => true,
        _ => false,
    }
}

pub fn run_end(x: Run) -> usize
    ensures { (result ≡ end_of x) × (result < 8589934592) }
{
    x.first as usize + x.count as usize
}

pub fn run_right(x: Run) -> bool
    ensures { result ≡ run_right x }
{
    let known = known_kind(x.kind);
    let end = run_end(x);
    known & ((1 <= x.count) & (end <= Geometry::MOST_PAGES))
}

// n where the run is a param run, else 0.
fn if_param(x: Run, n: usize) -> usize
    ensures { (result ≡ pick (is_param x) n 0) × (result ≤ n) }
{
    if x.is_param() {
        return n;
    }
    0
}

// Each run by itself, and what is asked of all: `at` is where the run before ended.
fn runs_right(f: &Fields) -> bool
    requires { f.now.r ≤ 4 }
    ensures { result ≡ runs_right f.now }
{
    let mut each = true;
    let mut rise = true;
    let mut at: usize = 0;
    let mut held: usize = 0;
    let mut code = false;
    let mut params: usize = 0;
    let mut pages: usize = 0;
    for x in &f.runs[..f.r] {
        each &= run_right(*x);
        rise &= at <= x.first as usize;
        at = run_end(*x);
        held += x.count as usize;
        code |= x.is_code();
        params += if_param(*x, 1);
        pages += if_param(*x, x.count as usize);
    }
    let few = held <= Geometry::MOST_HELD;
    each & (rise & (few & (code & ((params == 1) & (pages == 1)))))
}

// ---- entries
fn code_holds(x: Run, page: usize) -> bool
    ensures { result ≡ is_code x && holds x page }
{
    let end = run_end(x);
    x.is_code() & ((x.first as usize <= page) & (page < end))
}

// Whether ok holds and the page is in a code run: the one search of the two below, which goes no further than the run that has the page. It counts
// all places, and not the used ones alone, since a compiler keeps the runs in registers where it knows the number of turns.
fn code_if(ok: bool, f: &Fields, page: usize) -> bool
    requires { f.now.r ≤ 4 }
    ensures { result ≡ ok && in_code f.now page }
{
    if !ok {
        return false;
    }
    for (i, x) in f.runs.iter().enumerate() {
        if (i < f.r) & code_holds(*x, page) {
            return true;
        }
    }
    false
}

pub fn in_code(f: &Fields, page: usize) -> bool
    requires { f.now.r ≤ 4 }
    ensures { result ≡ in_code f.now page }
{
    code_if(true, f, page)
}

pub fn lengths_right(x: Entry) -> bool
    ensures { result ≡ lengths_right x }
{
    (x.input as usize <= Geometry::HALF) & (x.output as usize <= Geometry::HALF)
}

// Each entry by itself, and that they rise: `least` is one more than the address before.
fn entries_right(f: &Fields) -> bool
    requires { (f.now.r ≤ 4) × (f.now.e ≤ 8) }
    ensures { result ≡ entries_right f.now }
{
    let mut least: usize = 0;
    for x in &f.entries[..f.e] {
        let at = x.address as usize;
        let lengths = lengths_right(*x);
        if !code_if(lengths & (least <= at), f, Geometry::page_of(at)) {
            return false;
        }
        least = at + 1;
    }
    true
}

// ---- unused places: each field by itself, so that a compiler takes the places as whole words
pub fn unused_zero(f: &Fields) -> bool
    requires { (f.now.r ≤ 4) × (f.now.e ≤ 8) }
    ensures { result ≡ unused_zero f.now }
{
    let mut kind: u8 = 0;
    let mut count: u16 = 0;
    let mut first: u32 = 0;
    for run in &f.runs[f.r..] {
        kind |= run.kind;
        count |= run.count;
        first |= run.first;
    }
    let mut address: u32 = 0;
    let mut input: u16 = 0;
    let mut output: u16 = 0;
    for entry in &f.entries[f.e..] {
        address |= entry.address;
        input |= entry.input;
        output |= entry.output;
    }
    ((kind == 0) & ((count == 0) & (first == 0)))
        & ((address == 0) & ((input == 0) & (output == 0)))
}

// ---- every rule
pub fn keeps_rules(f: &Fields) -> bool
    ensures { result ≡ keeps_rules f.now }
{
    if !counts_right(f.r, f.e) {
        return false;
    }
    let runs = runs_right(f);
    let entries = entries_right(f);
    let unused = unused_zero(f);
    runs & (entries & unused)
}
