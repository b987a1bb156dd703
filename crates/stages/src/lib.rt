// Asking over an accepted document: the refusals 10 to 17, 27 and 31 one after the other, and the answer of the rows. A host calls gate.
#![tactic(auto)]

pub mod accepted;
pub mod answered;
mod granted;
mod refusing;
