// Why no catalogue is printed.
use definition::refusal::{Refusal, Refused};
use program_io::input::documents::DocumentError;
use program_io::input::files::Unread;
use program_io::output::shown::RefusalLine;
use std::alloc::AllocError;
use std::{fmt, io};

#[derive(Drop)]
pub enum Failure {
    // A call was refused, which is what is printed then.
    Refused(RefusalLine),
    // The file `switches` is malformed.
    Switches,
    Unread(Unread),
    Unwritten(io::Error),
}

impl From<Refused> for Failure {
    fn from(refused: Refused) -> Failure {
        Failure::Refused(RefusalLine(refused))
    }
}

// A card file that is not in whole words is refused as cards that are not whole.
impl From<DocumentError> for Failure {
    fn from(error: DocumentError) -> Failure {
        match error {
            DocumentError::Uneven => Failure::from(Refused::from(Refusal::CardsNotWhole)),
            DocumentError::Unread(unread) => Failure::Unread(unread),
        }
    }
}

impl From<AllocError> for Failure {
    fn from(error: AllocError) -> Failure {
        Failure::Unread(Unread::from(error))
    }
}

impl fmt::Display for Failure {
    fn fmt<W: fmt::Write>(&self, f: &mut fmt::Formatter<W>) -> fmt::Result {
        match self {
            Failure::Refused(line) => write!(f, "{line}"),
            Failure::Switches => write!(f, "switches is not two digits, each 0 or 1"),
            Failure::Unread(unread) => write!(f, "{unread}"),
            Failure::Unwritten(why) => write!(f, "the listing can't be written: {why}"),
        }
    }
}
