// No code: theorems about the rules, each a promise, so that none can go unnoticed.
#![tactic(auto)]

ghost use Rattle.kept.specs.Refusals.{RefusalsKeep, RefusalsNamed};
ghost use Rattle.kept.specs.Buffers.{AnswersFill};

// A refusal gives back the state, the memory and the buffer as they came.
pub fn refusals_keep()
    ensures { RefusalsKeep }
{}

// A number given for no is one of document 01's, 1 to 10.
pub fn refusals_named()
    ensures { RefusalsNamed }
{}

// An accepted answer of n bytes fills the first n bytes of the buffer and no others; n is the rule's.
pub fn answers_fill()
    ensures { AnswersFill }
{}
