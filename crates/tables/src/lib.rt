// Lines of labels and tables: what is wrong with one, storing it, and the step that does both.
#![tactic(auto)]

pub mod label_faults;
pub mod label_storing;
pub mod steps;
pub mod table_faults;
pub mod table_storing;
pub mod words;
