// Closed by what (02, Q-7), as a host asks it: the line that the explaining tool prints for a why line over a document, or over one
// that was loaded before, in a lent buffer.
#![tactic(auto)]

pub mod arrays;
mod lines;
pub mod texts;
