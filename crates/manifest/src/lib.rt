// The manifest: read from the trailer backward, and written (document 01, "Manifest: body first, trailer last").
#![tactic(auto)]

mod items; // runs and entries

ghost use Rattle.std.specs.Prelude.{◌≡◌, ◌+◌, ◌≤◌, length};
ghost use Rattle.lists.specs.Numbers.{little_at};
ghost use Rattle.std.proofs.lemmas.List.Edits.{sets};
ghost use Rattle.fields.specs.Fields.{run_places, entry_places};
ghost use Rattle.manifest.specs.Layout.{trailer_size, trailer_bytes};
ghost use Rattle.manifest.specs.Writer.{wrote, write_manifest};
ghost use Rattle.manifest.specs.Reader.{trailer_of, refused_reading, read_manifest};

use events::Refusal;
use fields::{Entry, Fields, Run};
use items::Item;

// "bytes 53 53 43 42, version 1": compared by the reader, written by the writer.
const FIXED: [u8; 5] = *b"SSCB\x01";

// "r runs (2 to 4) of 8 bytes, e entries (1 to 8) of 8 bytes, trailer of 16"
pub const ITEM: usize = 8;

pub const TRAILER: usize = 16;

#[derive(Clone, Copy)]
pub struct Counts {
    pub r: usize,
    pub e: usize,
}

// 0 and the fields, or the number of the refusal and all zero. No Result: document 01 gives a refusal fields too, all zero (`refused_reading`, of which
// the rules and `round` speak), and C reads it as it stands (host/monitor.h).
#[repr(C)]
#[derive(Clone, Copy)]
pub struct Reading {
    pub refusal: u8,
    pub fields: Fields,
}

// A number of four bytes, least first.
fn u32_at(bytes: &[u8], at: usize) -> u32
    requires { at + 4 ≤ length bytes.now }
    ensures { result ≡ little_at 4 bytes.now at }
{
    u32::from_le_bytes([bytes[at], bytes[at + 1], bytes[at + 2], bytes[at + 3]])
}

// The trailer, whose 16 bytes are the last.
fn trailer(bytes: &[u8]) -> Option<Counts>
    ensures { result ≡ trailer_of bytes.now }
{
    let n = bytes.len();
    if n < TRAILER {
        return None;
    }
    let t = n - TRAILER;
    let fixed = [
        bytes[t],
        bytes[t + 1],
        bytes[t + 2],
        bytes[t + 3],
        bytes[t + 4],
    ] == FIXED;
    let r = bytes[t + 5] as usize;
    let e = bytes[t + 6] as usize;
    let counts = keeps::counts_right(r, e);
    let zero = bytes[t + 7];
    let runs = u32_at(bytes, t + 8) as usize;
    let entries = u32_at(bytes, t + 12) as usize;
    if fixed
        & (counts
            & ((zero == 0)
                & ((n == ITEM * (r + e) + TRAILER)
                    & ((runs == ITEM * (r + e)) & (entries == ITEM * e)))))
    {
        Some(Counts { r, e })
    } else {
        None
    }
}

fn refused() -> Reading
    ensures { result ≡ refused_reading }
{
    Reading {
        refusal: u8::from(Refusal::RuleBroken),
        fields: Fields::NONE,
    }
}

// The manifest, from the trailer backward. A loop for each kind of item, so that each field's answer is taken apart here by let .. else: document 01's form.
pub fn read(bytes: &[u8]) -> Reading
    ensures { result ≡ read_manifest bytes.now }
{
    let Some(counts) = trailer(bytes) else {
        return refused();
    };
    let r = counts.r;
    let e = counts.e;
    let mut entries = [Entry::NONE; Fields::ENTRIES];
    for i in (0..e).rev() {
        let Some(x) = Entry::read(bytes, ITEM * r + ITEM * i) else {
            return refused();
        };
        entries[i] = x;
    }
    let mut runs = [Run::NONE; Fields::RUNS];
    for k in (0..r).rev() {
        let Some(y) = Run::read(bytes, ITEM * k) else {
            return refused();
        };
        runs[k] = y;
    }
    let reading = Reading {
        refusal: 0,
        fields: Fields {
            r,
            e,
            runs,
            entries,
        },
    };
    if !keeps::keeps_rules(&reading.fields) {
        return refused();
    }
    reading
}

// The trailer, at the end of what is written.
fn put_trailer(buffer: &mut [u8], at: usize, r: usize, e: usize)
    requires trailer_size_in_bounds { at + trailer_size ≤ length buffer.old }
    requires r_le_run_places { (r ≤ run_places) × (e ≤ entry_places) }
    ensures { buffer.new ≡ sets buffer.old at (trailer_bytes r e) }
{
    let runs = (ITEM * (r + e)) as u32;
    let entries = (ITEM * e) as u32;
    buffer[at..at + 5].copy_from_slice(&FIXED);
    buffer[at + 5..at + 8].copy_from_slice(&[r as u8, e as u8, 0]);
    buffer[at + 8..at + 12].copy_from_slice(&runs.to_le_bytes());
    buffer[at + 12..at + 16].copy_from_slice(&entries.to_le_bytes());
}

// So many bytes of the buffer, or the refusal.
// The fields come by value, as C hands them over (crate manifest_c).
pub fn write(f: Fields, buffer: &mut [u8]) -> Result<usize, Refusal>
    ensures { wrote result buffer.new ≡ write_manifest f buffer.old }
{
    if !keeps::keeps_rules(&f) {
        return Err(Refusal::RuleBroken);
    }
    let n = ITEM * (f.r + f.e) + TRAILER;
    if buffer.len() < n {
        return Err(Refusal::BufferShort);
    }
    let runs = &f.runs[..f.r];
    let entries = &f.entries[..f.e];
    items::put_all(buffer, 0, runs);
    items::put_all(buffer, ITEM * f.r, entries);
    put_trailer(buffer, ITEM * (f.r + f.e), f.r, f.e);
    Ok(n)
}
