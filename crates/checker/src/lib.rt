// The check of a document, line by line.
#![tactic(auto)]

pub mod loading;
mod steps;
