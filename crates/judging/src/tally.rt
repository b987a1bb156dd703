// The three counts of an answer.
#[derive(Clone, Copy)]
pub struct Tally {
    pub passed: usize,
    pub withheld: usize,
    pub unmatched: usize,
}
