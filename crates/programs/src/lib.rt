// What the programs share: their arguments, reading policy.txt and lines of standard input, reading and writing that wait where they have
// to, and the lines that are printed.
#![tactic(auto)]

pub mod arguments;
mod failures;
pub mod input;
pub mod line_reader;
pub mod lines;
pub mod output;
pub mod policy;
pub mod refusals;
mod retry;
