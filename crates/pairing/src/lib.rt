// A join from 15 on: its names, types, ranges, dates and labels judged one after the other, and its answer.
#![tactic(auto)]

mod faults;
mod naming;
pub mod refusing;
