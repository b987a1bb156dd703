// A loaded document, asked: the arrays that hold it, how many of each kind they hold, and the query. A host calls gate.
#![tactic(auto)]

pub mod asks;
pub mod cells;
pub mod measures;
mod room;
