// The numbers of an answer that is an enum, as C's entries hand them back and the lines of calls have them.
ghost use Rattle.definition.specs.Numbers.{field_lookup, subtype_lookup};
ghost use Rattle.api.specs.Answered.{FieldNumbers, SubtypeNumbers};

use definition::refusal::Refusal;
use definition::{ABSENT, FieldFound, FieldLookupError};

// The four numbers of `type_field`'s answer: the refusal or 0, what became of the field, which one was found, and the card.
#[repr(C)]
#[derive(Clone, Copy)]
pub struct FieldAnswer {
    pub refusal: u32,
    pub number: u32,
    pub meta: u32,
    pub card: u32,
}

// The two numbers of `is_subtype`'s answer: the refusal or 0, and 1 for yes, else 0.
#[repr(C)]
#[derive(Clone, Copy)]
pub struct SubtypeAnswer {
    pub refusal: u32,
    pub yes: u32,
}

// What a refused lookup tells but for its refusal.
const NOTHING: FieldAnswer = FieldAnswer {
    refusal: 0,
    number: 0,
    meta: ABSENT,
    card: ABSENT,
};

impl From<FieldFound> for FieldAnswer {
    ghost use Rattle.definition.specs.Answers.{Found};

    ghost from_gives = { λ found answer. FieldNumbers (Found found) answer };

    fn from(found: FieldFound) -> FieldAnswer {
        let (meta, card) = match found {
            FieldFound::Explicit(card) => (0, card),
            FieldFound::Typename => (1, ABSENT),
            FieldFound::Schema => (2, ABSENT),
            FieldFound::Type => (3, ABSENT),
        };
        FieldAnswer {
            refusal: 0,
            number: 1,
            meta,
            card,
        }
    }
}

impl From<Result<FieldFound, FieldLookupError>> for FieldAnswer {
    ghost from_gives = { λ told answer. FieldNumbers (field_lookup told) answer };

    fn from(told: Result<FieldFound, FieldLookupError>) -> FieldAnswer {
        match told {
            Ok(found) => FieldAnswer::from(found),
            Err(FieldLookupError::NoSuchType) => FieldAnswer {
                number: 2,
                ..NOTHING
            },
            Err(FieldLookupError::NoSuchField(card)) => FieldAnswer {
                number: 3,
                card,
                ..NOTHING
            },
            Err(FieldLookupError::Refused(refusal)) => FieldAnswer {
                refusal: refusal.number(),
                ..NOTHING
            },
        }
    }
}

impl From<Result<bool, Refusal>> for SubtypeAnswer {
    ghost from_gives = { λ told answer. SubtypeNumbers (subtype_lookup told) answer };

    fn from(told: Result<bool, Refusal>) -> SubtypeAnswer {
        match told {
            Ok(yes) => SubtypeAnswer {
                refusal: 0,
                yes: u32::from(yes),
            },
            Err(refusal) => SubtypeAnswer {
                refusal: refusal.number(),
                yes: 0,
            },
        }
    }
}
