// Labels, tables, what later lines say of them, and rows in the workspace: looked up and added.
#![tactic(auto)]

pub mod labels;
pub mod notes;
pub mod rows;
pub mod tables;
