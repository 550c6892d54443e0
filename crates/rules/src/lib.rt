// The rules of the eleven events, as definitions; no code but the promises.
#![tactic(auto)]

ghost use Rattle.rules.specs.Isolation.{Isolation, Shaped};
ghost use Rattle.rules.specs.Measures.{PcrsRight};
ghost use Rattle.rules.specs.Calls.{CallsChecked};

use state::State;

// Demand 3: a codeblock is isolated.
pub fn isolation()
    ensures { Isolation }
{}

// Every state is one of those that isolation speaks of.
pub fn shaped(s: State)
    ensures { Shaped s }
{}

// A fresh codeblock's µPCRs, and an extended one, byte by byte.
pub fn pcrs_right()
    ensures { PcrsRight }
{}

// A call's ranges are looked at when it is made.
pub fn calls_checked()
    ensures { CallsChecked }
{}
