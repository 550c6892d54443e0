// The events that leave the state as it is: read, write, the device's, µPCR read; and the page rule.
#![tactic(auto)]

use events::Answer;
use state::State;

pub mod pages; // the page rule: mode, page and kind of access
pub mod read; // Read, Device read
pub mod write; // Write, Device write
pub mod pcr_read; // µPCR read

// An event's answer, and the state after it.
#[derive(Clone, Copy)]
pub struct Stepped {
    pub answer: Answer,
    pub state: State,
}
