// Asking, and what is claimed of it: definitions and theorems, no code. The code stands in crate gate.
#![tactic(auto)]
