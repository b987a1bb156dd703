// What the checker says of a line.
use text::refusals::Reason;

// What is wrong: the whole line is refused, or the word at a place of it, or the value of a cell, as it is written there.
#[derive(Clone, Copy)]
pub enum Fault {
    Whole(Reason),
    Item(Reason, usize),
    Value(Reason, usize),
}
