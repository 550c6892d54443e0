// The device map (document 01, "Device map"): one bit a page, 1 where a device may not reach it.
#![tactic(auto)]

ghost use Rattle.std.specs.Prelude.{◌≡◌, ℕ, ◌≤◌, ◌<◌, ◌+◌, length};
ghost use Rattle.std.proofs.lemmas.List.Edits.{sets};
ghost use Rattle.lists.specs.Below.{table};
ghost use Rattle.geometry.specs.Geometry.{most_pages};
ghost use Rattle.devicemap.specs.Map.{map_length, shut_in, byte_in, mapped, buffer_after};
ghost use Rattle.devicemap.specs.Promise.{EachBit};

use events::Refusal;
use state::State;

// A page's bit, by the owners of the P pages. From P on no page is open.
fn shut(owner: &[u8], p: usize) -> u8
    ensures { (result ≡ shut_in owner.now (length owner.now) p) × (result ≤ 1) }
{
    u8::from(owner.len() <= p || owner[p] != 0)
}

fn map_byte(owner: &[u8], i: usize) -> u8
    requires { i < map_length most_pages }
    ensures { result ≡ byte_in owner.now (length owner.now) i }
{
    let mut bits: u8 = 0;
    // By bits, with shifts and a mask: document 01's form.
    for j in 0..8 {
        bits |= shut(owner, 8 * i + j) << j;
    }
    bits
}

fn fill(owner: &[u8], map: &mut [u8])
    requires { length map.old ≤ map_length most_pages }
    ensures { map.new ≡ table (byte_in owner.now (length owner.now)) (length map.old) }
{
    for (i, byte) in map.iter_mut().enumerate() {
        *byte = map_byte(owner, i);
    }
}

// So many bytes of the buffer, or the refusal.
pub fn device_map(s: State, buffer: &mut [u8]) -> Result<usize, Refusal>
    ensures { (result ≡ mapped s (length buffer.old)) × (buffer.new ≡ buffer_after s buffer.old) }
{
    if !wellformed::state_right(s) {
        return Err(Refusal::NotWellFormed);
    }
    let n = s.pages.div_ceil(8);
    if buffer.len() < n {
        return Err(Refusal::BufferShort);
    }
    fill(&s.owner[..s.pages], &mut buffer[..n]);
    Ok(n)
}

// What the map promises beyond its contract, held by name.
pub fn each_bit()
    ensures { EachBit }
{}
