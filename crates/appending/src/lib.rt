// The row lines of a file behind a document: definitions and theorems, no code. The code that writes them stands in crate import.
#![tactic(auto)]
