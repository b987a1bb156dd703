// Closed by what (02, Q-7): why a cell is open or closed to a purpose.
#![tactic(auto)]

mod cells;
pub mod explained;
mod labels;
pub mod lines;
