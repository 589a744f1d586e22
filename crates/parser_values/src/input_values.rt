// Input values (3.6.1 of the specification): what the definitions of an argument and of an input field have in common; and the definitions of arguments.
ghost use Rattle.std.specs.Prelude.{[], ◌∷◌};
ghost use Rattle.definition.specs.Grammar.{part, colon, TypeReference, Default?, Directive*, ArgumentDefinition, ArgumentDefinition*, ArgumentDefinitions?};
ghost use Rattle.parser_values.specs.Parentheses.{definitions_rules};
ghost use Rattle.parser_values.specs.Reads.{MustRead, MayRead};

use crate::description::description;
use crate::directives::directives;
use crate::parentheses::{Parenthesised, in_parentheses};
use crate::types::type_reference;
use crate::values::default_value;
use crate::{Depth, SyntaxError, take};
use parser_lexer::Cursor;
use parser_lexer::sorts::{FIRST_NAME, Sort};

// What comes after the name: a colon, the type, a default value or none, and directives.
pub fn input_value_type(c: Cursor) -> Result<Cursor, SyntaxError>
    ensures { MustRead (colon ∷ part TypeReference ∷ part Default? ∷ part Directive* ∷ []) c.entry 0 result }
{
    let k = take(c, Sort::Colon, Sort::Colon)?;
    let j = type_reference(k, Depth::full())?;
    let e = default_value(j)?;
    directives(e)
}

// The definition of an argument.
fn argument_definition(c: Cursor) -> Result<Cursor, SyntaxError>
    ensures { MustRead (part ArgumentDefinition ∷ []) c.entry 0 result }
{
    let k = description(c);
    let j = take(k, FIRST_NAME, Sort::Name)?;
    input_value_type(j)
}

// What stands in the parentheses of a definition.
struct Defined;

impl Parenthesised for Defined {
    ghost list = { ArgumentDefinitions? };

    ghost item = { ArgumentDefinition };

    ghost more = { ArgumentDefinition* };

    fn read(c: Cursor) -> Result<Cursor, SyntaxError> {
        argument_definition(c)
    }

    ghost rules = { definitions_rules };
}

// The definitions of arguments in parentheses, at least one; or none.
pub fn argument_definitions(c: Cursor) -> Result<Cursor, SyntaxError>
    ensures { MayRead (part ArgumentDefinitions? ∷ []) c.entry 0 result }
{
    in_parentheses::<Defined>(c)
}
