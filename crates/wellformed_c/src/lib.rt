// The well-formedness test, as bench_c gives it to C, to be timed against a C program.
#![tactic(auto)]

ghost use Rattle.std.specs.Prelude.{◌≡◌};
ghost use Rattle.wellformed.specs.WellFormed.{well_formed};
ghost use Rattle.twin.specs.Twin.{opened_of};

use state::State;
use twin::Monitor;

pub fn guddaroox_well_formed(m: Monitor, length: usize) -> bool
    ensures { result ≡ well_formed (opened_of m) length }
{
    wellformed::well_formed(State::from(m), length)
}
