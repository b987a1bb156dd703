// Lines of users and grants: what is wrong with one, storing it, and the step that does both.
#![tactic(auto)]

mod givens;
pub mod grant_faults;
pub mod grant_storing;
pub mod steps;
pub mod user_faults;
pub mod user_storing;
