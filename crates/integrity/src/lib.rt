// No code: what no event touches, and where a codeblock's code runs, each a promise.
#![tactic(auto)]

ghost use Rattle.integrity.specs.Monitor.{MonitorKept, MonitorUnseen};
ghost use Rattle.integrity.specs.Code.{CodeKept, EnteredByCall, JumpsStay};

// No event writes the monitor's pages.
pub fn monitor_kept()
    ensures { MonitorKept }
{}

// No answer, state or buffer depends on them.
pub fn monitor_unseen()
    ensures { MonitorUnseen }
{}

// From registration to release no event changes a byte of a codeblock's code.
pub fn code_kept()
    ensures { CodeKept }
{}

// Secure mode is entered only at a registered entry address.
pub fn entered_by_call()
    ensures { EnteredByCall }
{}

// While it lasts, an accepted jump lands on a code page of its own.
pub fn jumps_stay()
    ensures { JumpsStay }
{}
