// The running call's record at the host's two switch points: "entering and leaving, it is lent and updated where it stands" (document 01).
#![tactic(auto)]

ghost use Rattle.std.specs.Prelude.{◌≡◌};
ghost use Rattle.rules.specs.Tests.{kept_as};
ghost use Rattle.switch.specs.Record.{entered_record, left_of, CallEnters, ReturnLeaves};

use state::Running;
use std::mem;

// "A length of 0 in the entry means that address isn't looked at and is kept as 0."
pub fn kept_as(length: usize, address: usize) -> usize
    ensures { result ≡ kept_as length address }
{
    if length == 0 { 0 } else { address }
}

// Entering: the lent record becomes that of the call that begins. Firmware in C calls it too, and `monitor_leave`.
pub fn monitor_enter(running: &mut Running, slot: usize, out: usize, length: usize)
    ensures { running.new ≡ entered_record slot out length }
{
    *running = Running {
        slot,
        out: kept_as(length, out),
        length,
    };
}

// Leaving: the caller has the record as it was, and the lent one is zero.
pub fn monitor_leave(running: &mut Running) -> Running
    ensures { (result ≡ (left_of running.old).was) × (running.new ≡ (left_of running.old).rest) }
{
    mem::replace(running, Running::NONE)
}

// What Call's rule puts into the state's record is what `monitor_enter` leaves in the lent one.
#[tactic(auto, unfolding(rules::specs::Decide::entered))]
pub fn call_enters()
    ensures { CallEnters }
{}

// What Return's rule reads of the state's record and leaves in it is what `monitor_leave` hands out and leaves in the lent one.
#[tactic(auto, unfolding(rules::specs::Decide::return_rule))]
pub fn return_leaves()
    ensures { ReturnLeaves }
{}
