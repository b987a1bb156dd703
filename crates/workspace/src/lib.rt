// The lent workspace: how its arrays are laid out, storing a number, and looking a name up.
#![tactic(auto)]

pub mod found;
pub mod hashes;
pub mod layout;
pub mod met;
pub mod store;
