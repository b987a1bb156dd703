// Refusals: why, in which text, and which part of it.
ghost use Rattle.std.specs.Prelude.{◌≡◌};
ghost use Rattle.text.specs.Reasons.{reason_number};

// Why a document, a query or a file is refused; each case has its number in the paper.
#[derive(Clone, Copy)]
pub enum Reason {
    TooLong,
    WrongForm,
    OverBound,
    NameTaken,
    NameUnknown,
    SecondRoot,
    WrongValues,
    WrongType,
    LateAttribute,
    ClockOutOfRange,
    NotAQuery,
    UnknownParty,
    RoleNotGiven,
    NotAuthorised,
    UnknownColumn,
    MistypedQuery,
    Closed,
    BufferTooShort,
    MalformedRecord,
    UnfitField,
    ImportTooShort,
    SelfJoined,
    UnknownWhy,
    NoSuchRow,
    NoteMisplaced,
    NestExplained,
    RangeNotTaken,
    RangeReversed,
    NoSuchDate,
}

// The text that a refusal points into.
#[derive(Clone, Copy)]
pub enum Source {
    Document,
    Query,
    File,
}

// A refusal: why, and the part handed back, by the place of its first byte and its length.
#[derive(Clone, Copy)]
pub struct Refusal {
    pub reason: Reason,
    pub source: Source,
    pub start: usize,
    pub len: usize,
}

// The number of a reason.
pub fn number(r: Reason) -> usize
    ensures { result ≡ reason_number r }
{
    match r {
        Reason::TooLong => 1,
        Reason::WrongForm => 2,
        Reason::OverBound => 3,
        Reason::NameTaken => 4,
        Reason::NameUnknown => 5,
        Reason::SecondRoot => 6,
        Reason::WrongValues => 7,
        Reason::WrongType => 8,
        Reason::LateAttribute => 9,
        Reason::ClockOutOfRange => 10,
        Reason::NotAQuery => 11,
        Reason::UnknownParty => 12,
        Reason::RoleNotGiven => 13,
        Reason::NotAuthorised => 14,
        Reason::UnknownColumn => 15,
        Reason::MistypedQuery => 16,
        Reason::Closed => 17,
        Reason::BufferTooShort => 18,
        Reason::MalformedRecord => 19,
        Reason::UnfitField => 20,
        Reason::ImportTooShort => 21,
        Reason::SelfJoined => 22,
        Reason::UnknownWhy => 23,
        Reason::NoSuchRow => 24,
        Reason::NoteMisplaced => 25,
        Reason::NestExplained => 26,
        Reason::RangeNotTaken => 27,
        Reason::RangeReversed => 28,
        Reason::NoSuchDate => 31,
    }
}
