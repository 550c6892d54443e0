// A slot's release, and the two events that may release: unregister and jump.
#![tactic(auto)]

pub mod release; // "Release"
pub mod unregister; // Unregister
pub mod jump; // Jump
