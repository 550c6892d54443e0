// What the benchmarks in C call: each function is that of a library, under its name, and promises what that one promises.
#![tactic(auto)]

ghost use Rattle.std.specs.Prelude.{◌≡◌};
ghost use Rattle.sha_1.specs.Sha1 as Sha1;
ghost use Rattle.wellformed.specs.WellFormed.{well_formed};
ghost use Rattle.twin.specs.Twin.{opened_of};

use twin::Monitor;

#[unsafe(no_mangle)]
pub extern "C" fn sha1_hash(part: &[u8]) -> sha_1::Digest
    ensures { result.bytes ≡ Sha1.sha1 part.now }
{
    sha1_c::sha1_hash(part)
}

#[unsafe(no_mangle)]
pub extern "C" fn guddaroox_well_formed(m: Monitor, length: usize) -> bool
    ensures { result ≡ well_formed (opened_of m) length }
{
    wellformed_c::guddaroox_well_formed(m, length)
}
