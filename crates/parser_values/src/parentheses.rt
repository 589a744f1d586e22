// Lists in parentheses, of at least one item: arguments (2.6 of the specification), and the definitions of arguments (3.6.1).
ghost use Rattle.std.specs.Prelude.{[], ◌∷◌};
ghost use Rattle.definition.specs.Grammar.{Part, part};
ghost use Rattle.parser_values.specs.Reads.{MustRead, MayRead};
ghost use Rattle.parser_values.specs.Parentheses.{InParentheses};

use crate::SyntaxError;
use parser_lexer::Cursor;
use parser_lexer::sorts::Sort;

// What stands in parentheses: the parts of the grammar that are the list or none, an item, and the items after the first.
pub trait Parenthesised {
    ghost list: { Part };

    ghost item: { Part };

    ghost more: { Part };

    fn read(c: Cursor) -> Result<Cursor, SyntaxError>
        ensures { MustRead (part item ∷ []) c.entry 0 result };

    // What the grammar has for them.
    ghost rules: { InParentheses list item more };
}

// A list, or none.
pub fn in_parentheses<P: Parenthesised>(c: Cursor) -> Result<Cursor, SyntaxError>
    ensures { MayRead (part P.list ∷ []) c.entry 0 result }
{
    if c.sort != Sort::ParenOpens {
        return Ok(c);
    }
    let mut k = c.next();
    loop {
        let j = P::read(k)?;
        if j.sort == Sort::ParenCloses {
            return Ok(j.next());
        }
        k = j;
    }
}
