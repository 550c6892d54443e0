// No code: what the rules give, computed, each table a promise. A monitor that refuses all would keep every other theorem.
#![tactic(auto)]

ghost use Rattle.std.specs.Prelude.{◌≡◌, true};
ghost use Rattle.alive.specs.Rows.{Holds};
ghost use Rattle.alive.specs.Examples.{all_right, examples};
ghost use Rattle.alive.specs.Answers.{accepted, refused};
ghost use Rattle.alive.specs.Trace.{TwoWorlds};

// E1 to E12, one table under one claim.
pub fn examples_hold()
    ensures { all_right examples ≡ true }
{}

// Each of the eleven events is accepted, with slots registered.
pub fn events_accepted()
    ensures { Holds accepted }
{}

// Each number from 1 to 10 is given.
pub fn refusals_given()
    ensures { Holds refused }
{}

// Two worlds that differ as isolation lets them go through a trace in which every event is accepted.
pub fn two_worlds()
    ensures { TwoWorlds }
{}
