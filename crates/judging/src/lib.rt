// The comparisons of a query read once, and their types (16) and dates (31); the rows of its table, each judged once: those that pass are marked,
// and all are counted.
#![tactic(auto)]

pub mod cells;
pub mod comparing;
mod constants;
pub mod fates;
pub mod marking;
pub mod sides;
pub mod sought;
pub mod tally;
pub mod tests;
pub mod types;
