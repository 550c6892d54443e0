// The three demands, as three promises. Open specs/First, Second and Third: each has the demand's words, a paragraph in plain ones, and its parts.
#![tactic(auto)]

ghost use Rattle.promises.specs.First.{EveryInputAnswered};
ghost use Rattle.promises.specs.Second.{AsTheRulesSay};
ghost use Rattle.promises.specs.Third.{KeptApart};

// Demand 1.
pub fn every_input_answered()
    ensures { EveryInputAnswered }
{}

// Demand 2.
pub fn as_the_rules_say()
    ensures { AsTheRulesSay }
{}

// Demand 3.
pub fn kept_apart()
    ensures { KeptApart }
{}
