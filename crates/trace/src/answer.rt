// What reading and writing a trace number answer. `specs/Answers.antt` gives document 01's number,
// value and place for each case.
use refusals::refusal::Refusal;

// An accepted read: a number and the place after it; or the slice's very end.
#[derive(Clone, Copy, Debug, PartialEq, Eq)]
pub enum Read {
    Number { value: u64, next: usize },
    End { at: usize },
}

// A refused read or write: the refusal, and the place given.
#[derive(Clone, Copy, Debug, PartialEq, Eq)]
pub struct Refused {
    pub refusal: Refusal,
    pub at: usize,
}
