// Lines without a fault that are read, judged and stored in one walk: rows, and purposes below another.
#![tactic(auto)]

pub mod cells;
pub mod lines;
pub mod purposes;
