// Calendar dates: their days, their order, and their text; and the values of cells, dates among them.
#![tactic(auto)]

pub mod cell_values;
pub mod dates;
pub mod reading;
