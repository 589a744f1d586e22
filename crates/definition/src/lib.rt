// The answers of the public entries. Contracts and definitions share these types; specs/ says what each case stands for.
#![tactic(auto)]

ghost use Rattle.std.specs.Prelude.{◌≡◌};
ghost use Rattle.definition.specs.Numbers.{refused_answer, done_answer, count_answer, drawing_answer};

use build_error::ERROR_NUMBERS;
use refusal::{Refusal, Refused};

pub mod build_error;
pub mod layout;
pub mod refusal;

// The word that stands for no card, `-` in 01.
// Stays: the words of rows and of cards are lent by C, where one number has to stand for none.
pub const ABSENT: u32 = u32::MAX;

// A refusal and, for 2 to 6, 27 and 28, the number of the card in its document, for 29 and 30 the place in the text, else 0. An accepted call answers 0 and
// 0; a call that fills a slice answers 0 and how many things it wrote. A lent document may have more cards than 32 bits count, so the card's number is a usize.
#[repr(C)]
#[derive(Clone, Copy)]
pub struct Answer {
    pub number: u32,
    pub card: usize,
}

impl From<Refused> for Answer {
    ghost from_gives = { λ refused a. a ≡ refused_answer refused };

    fn from(refused: Refused) -> Answer {
        Answer {
            number: refused.refusal.number(),
            card: refused.place,
        }
    }
}

impl From<Result<(), Refused>> for Answer {
    ghost from_gives = { λ done a. a ≡ done_answer done };

    fn from(done: Result<(), Refused>) -> Answer {
        match done {
            Ok(()) => Answer { number: 0, card: 0 },
            Err(refused) => Answer::from(refused),
        }
    }
}

impl From<Result<usize, Refused>> for Answer {
    ghost from_gives = { λ counted a. a ≡ count_answer counted };

    fn from(counted: Result<usize, Refused>) -> Answer {
        match counted {
            Ok(count) => Answer {
                number: 0,
                card: count,
            },
            Err(refused) => Answer::from(refused),
        }
    }
}

// One tally for each error number, 1 to 16, and how many errors there are in all.
#[repr(C)]
#[derive(Clone, Copy, Default)]
pub struct Tallies {
    pub counts: [u32; ERROR_NUMBERS],
    pub total: u32,
}

// What `build` drew: how many rows it wrote, and how many errors arose while reading documents and while drawing.
#[derive(Clone, Copy)]
pub struct Drawn {
    pub rows: u32,
    pub reading_errors: u32,
    pub drawing_errors: u32,
    pub tallies: Tallies,
}

// What `build` answers: the refusal or 0, how many rows it wrote, and how many errors arose while reading documents and while drawing.
#[repr(C)]
#[derive(Clone, Copy)]
pub struct Drawing {
    pub number: u32,
    pub rows: u32,
    pub reading_errors: u32,
    pub drawing_errors: u32,
    pub tallies: Tallies,
}

impl From<Result<Drawn, Refusal>> for Drawing {
    ghost from_gives = { λ drawn d. d ≡ drawing_answer drawn };

    fn from(drawn: Result<Drawn, Refusal>) -> Drawing {
        match drawn {
            Ok(drawn) => Drawing {
                number: 0,
                rows: drawn.rows,
                reading_errors: drawn.reading_errors,
                drawing_errors: drawn.drawing_errors,
                tallies: drawn.tallies,
            },
            Err(refusal) => Drawing {
                number: refusal.number(),
                rows: 0,
                reading_errors: 0,
                drawing_errors: 0,
                tallies: Tallies::default(),
            },
        }
    }
}

// The three root operations, as in ast/mod.rs.
#[derive(Clone, Copy, PartialEq, Eq)]
pub enum OperationType {
    Query,
    Mutation,
    Subscription,
}

// The field that `type_field` found: the card of a field that the type has, or a meta field.
#[derive(Clone, Copy, PartialEq, Eq)]
pub enum FieldFound {
    Explicit(u32),
    Typename,
    Schema,
    Type,
}

// Why `type_field` finds no field. `NoSuchField` has the card of the type's row.
#[derive(Clone, Copy, PartialEq, Eq)]
pub enum FieldLookupError {
    NoSuchType,
    NoSuchField(u32),
    Refused(Refusal),
}

// A refused lookup finds no field.
impl From<Refusal> for FieldLookupError {
    ghost use Rattle.definition.specs.declared.FieldLookupError.{FieldLookupError};

    ghost from_gives = { λ refusal e. e ≡ FieldLookupError.Refused refusal };

    fn from(refusal: Refusal) -> FieldLookupError {
        FieldLookupError::Refused(refusal)
    }
}
