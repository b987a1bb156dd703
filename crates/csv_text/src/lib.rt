// Comma-separated files: their fields and records.
#![tactic(auto)]

pub mod fields;
pub mod records;
