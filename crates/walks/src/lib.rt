// Laws for walks of MIR by hand: cells within cells, and loans; no code.
#![tactic(auto)]
