// Why a text is refused.
use definition::refusal::{Refusal, Refused};

// What is wrong, and where.
#[derive(Clone, Copy, PartialEq, Eq)]
pub enum SyntaxError {
    // A token, byte or end that no text of the grammar has there.
    NotInGrammar(usize),
    // The opener of a 33rd level.
    NestedTooDeep(usize),
}

impl From<SyntaxError> for Refused {
    ghost use Rattle.std.specs.Prelude.{◌≡◌};
    ghost use Rattle.parser_values.specs.Errors.{refused_by};

    ghost from_gives = { λ error refused. refused ≡ refused_by error };

    fn from(error: SyntaxError) -> Refused {
        match error {
            SyntaxError::NotInGrammar(place) => Refused {
                refusal: Refusal::NotInGrammar,
                place,
            },
            SyntaxError::NestedTooDeep(place) => Refused {
                refusal: Refusal::NestedTooDeep,
                place,
            },
        }
    }
}
