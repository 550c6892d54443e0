// Definitions and laws over lists and counting loops; no code.
#![tactic(auto)]
