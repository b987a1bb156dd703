// The gate, as a host sees it: checking a document, loading and asking it, measuring an answer, the part that a refusal hands back, and
// the C exports. A document that was loaded is asked and measured by crate loaded; why a cell is open or closed says crate telling.
#![tactic(auto)]

pub mod arrays;
pub mod asking;
pub mod documents;
pub mod explaining;
pub mod exports;
pub mod measuring;
pub mod parts;
