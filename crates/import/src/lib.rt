// Comma-separated files, and the row lines that are made of them.
#![tactic(auto)]

pub mod importing;
mod rows;
