// The forms of a document's lines: reading a line by the places of its words, and walking through its lists again.
#![tactic(auto)]

pub mod lines;
pub mod parts;
pub mod walks;
