// Queries: their form, joins among them, who may ask them, and what they name; lines of the explaining tool.
#![tactic(auto)]

pub mod clock;
pub mod joins;
pub mod naming;
pub mod reading;
pub mod ref_naming;
pub mod why;
