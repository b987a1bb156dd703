// Purposes, roles, attributes, users, conditional roles and grants in the workspace: looked up and added.
#![tactic(auto)]

pub mod attributes;
pub mod conds;
pub mod grants;
pub mod names;
pub mod users;
