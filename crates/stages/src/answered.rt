// What asking gives.
use text::refusals::Refusal;

// An accepted answer: its length, the position of the grant that authorised it, and the rows passed, withheld and unmatched.
#[derive(Clone, Copy)]
pub struct Figures {
    pub len: usize,
    pub grant: usize,
    pub passed: usize,
    pub withheld: usize,
    pub unmatched: usize,
}
