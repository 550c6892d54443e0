// Register: "3, 6, 7. Takes the lowest free slot .. Its pages become its own."
#![tactic(auto)]

pub mod free; // open pages and free slots
pub mod measure; // the measurement
pub mod register; // Register
