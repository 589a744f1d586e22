// Directives: 2.12 of the specification, constant.
ghost use Rattle.std.specs.Prelude.{[], ◌∷◌};
ghost use Rattle.definition.specs.Grammar.{part, Directive, Directive*};
ghost use Rattle.parser_values.specs.Reads.{MustRead, MayRead};

use crate::arguments::arguments;
use crate::{SyntaxError, take};
use parser_lexer::Cursor;
use parser_lexer::sorts::{FIRST_NAME, Sort};

// A directive: `@`, a name, and arguments or none.
fn directive(c: Cursor) -> Result<Cursor, SyntaxError>
    ensures { MustRead (part Directive ∷ []) c.entry 0 result }
{
    let k = take(c, Sort::At, Sort::At)?;
    let j = take(k, FIRST_NAME, Sort::Name)?;
    arguments(j)
}

// Directives, as many as stand there.
pub fn directives(c: Cursor) -> Result<Cursor, SyntaxError>
    ensures { MayRead (part Directive* ∷ []) c.entry 0 result }
{
    let mut k = c;
    while k.sort == Sort::At {
        let j = directive(k)?;
        k = j;
    }
    Ok(k)
}
