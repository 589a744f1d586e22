// How a line fails.
use crate::line::{DASH, Malformed};
use std::fmt;

// What was expected stands in the line itself, so a failure says what came.
#[derive(Clone, Copy, Debug)]
pub enum Failure {
    // The line is none of the calls, or has other words than it must have.
    Malformed,
    // A file that it names can't be read.
    NoFile,
    // Another answer: two numbers, or the four of a field.
    Answered {
        number: usize,
        card: usize,
    },
    Field {
        refusal: usize,
        kind: usize,
        meta: usize,
        card: usize,
    },
    // Other words or bytes than those expected.
    Other,
    // Something was changed that had to stay.
    Changed,
}

impl From<Malformed> for Failure {
    fn from(_: Malformed) -> Failure {
        Failure::Malformed
    }
}

// A number as the lines write it.
#[derive(Clone, Copy)]
struct Number(usize);

impl fmt::Display for Number {
    fn fmt<W: fmt::Write>(&self, f: &mut fmt::Formatter<W>) -> fmt::Result {
        if self.0 == DASH {
            return write!(f, "-");
        }
        write!(f, "{}", self.0)
    }
}

impl fmt::Display for Failure {
    fn fmt<W: fmt::Write>(&self, f: &mut fmt::Formatter<W>) -> fmt::Result {
        match self {
            Failure::Malformed => write!(f, "the line is malformed"),
            Failure::NoFile => write!(f, "a file can't be read"),
            Failure::Answered { number, card } => {
                write!(f, "came {} {}", Number(*number), Number(*card))
            }
            Failure::Field {
                refusal,
                kind,
                meta,
                card,
            } => write!(
                f,
                "came {} {} {} {}",
                Number(*refusal),
                Number(*kind),
                Number(*meta),
                Number(*card)
            ),
            Failure::Other => write!(f, "other words came"),
            Failure::Changed => write!(f, "what had to stay was changed"),
        }
    }
}
