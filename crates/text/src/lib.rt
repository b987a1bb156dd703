// Bracket texts: bytes and their classes, words, names and numbers, items behind a space, and lines.
#![tactic(auto)]

pub mod amounts;
pub mod brackets;
pub mod bytes;
pub mod lines;
pub mod numbers;
pub mod refusals;
pub mod walking;
pub mod words;
