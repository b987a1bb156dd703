// Two askings side by side: of two documents, which are answered alike where they are alike, and of one for two purposes.
#![tactic(auto)]

pub mod below;
pub mod two;
