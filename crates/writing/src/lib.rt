// Writing into lent buffers.
#![tactic(auto)]

pub mod bytes;
