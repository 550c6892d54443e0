// The hash of one part, as bench_c gives it to C: the benchmark of SHA-1.
#![tactic(auto)]

ghost use Rattle.std.specs.Prelude.{◌≡◌};
ghost use Rattle.sha_1.specs.Sha1 as Sha1;

pub fn sha1_hash(part: &[u8]) -> sha_1::Digest
    ensures { result.bytes ≡ Sha1.sha1 part.now }
{
    sha_1::hash(part)
}
