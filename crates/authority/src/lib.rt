// Who may ask for what: the tree of purposes, and the first grant.
#![tactic(auto)]

pub mod grants;
pub mod purposes;
