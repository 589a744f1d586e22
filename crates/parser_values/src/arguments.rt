// Arguments: 2.6 of the specification, constant.
ghost use Rattle.std.specs.Prelude.{[], ◌∷◌};
ghost use Rattle.definition.specs.Grammar.{part, Argument, Argument*, Arguments?};
ghost use Rattle.parser_values.specs.Parentheses.{arguments_rules};
ghost use Rattle.parser_values.specs.Reads.{MustRead, MayRead};

use crate::parentheses::{Parenthesised, in_parentheses};
use crate::values::value;
use crate::{Depth, SyntaxError, name_and_colon};
use parser_lexer::Cursor;

// An argument: a name, a colon and a value.
fn argument(c: Cursor) -> Result<Cursor, SyntaxError>
    ensures { MustRead (part Argument ∷ []) c.entry 0 result }
{
    let k = name_and_colon(c)?;
    value(k, Depth::full())
}

// What stands in the parentheses of a directive.
struct Given;

impl Parenthesised for Given {
    ghost list = { Arguments? };

    ghost item = { Argument };

    ghost more = { Argument* };

    fn read(c: Cursor) -> Result<Cursor, SyntaxError> {
        argument(c)
    }

    ghost rules = { arguments_rules };
}

// Arguments in parentheses, at least one; or none.
pub fn arguments(c: Cursor) -> Result<Cursor, SyntaxError>
    ensures { MayRead (part Arguments? ∷ []) c.entry 0 result }
{
    in_parentheses::<Given>(c)
}
