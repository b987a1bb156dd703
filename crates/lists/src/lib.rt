// Lists, and values that may be missing: what the specifications of every crate above are written with. It has no code.
#![tactic(auto)]
