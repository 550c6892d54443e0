// The events that enter a codeblock and leave it: call and return.
#![tactic(auto)]

pub mod places; // where an entry and the param page are
pub mod call; // Call
pub mod return_; // Return
