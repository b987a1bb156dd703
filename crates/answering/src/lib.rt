// The answer to a query over the rows of its table, measured and written.
#![tactic(auto)]

pub mod answers;
pub mod lines;
