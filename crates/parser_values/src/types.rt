// Type references: 2.11 of the specification.
ghost use Rattle.std.specs.Prelude.{[], ◌∷◌, ◌-◌};
ghost use Rattle.definition.specs.Grammar.{part, TypeReference};
ghost use Rattle.parser_values.specs.Reads.{MustRead};

use crate::{Depth, SyntaxError, take, take_optional};
use parser_lexer::Cursor;
use parser_lexer::sorts::{FIRST_NAME, Sort};

// A type reference, with the levels of a depth left: a name, or a type reference in brackets, which is a level; and `!` after it, or none.
#[tactic(auto, using(crate::proofs::TypeReferences::list_deep))]
pub fn type_reference(c: Cursor, depth: Depth) -> Result<Cursor, SyntaxError>
    ensures { MustRead (part TypeReference ∷ []) c.entry (32 - depth.levels) result }
{
    if c.sort != Sort::BracketOpens {
        let k = take(c, FIRST_NAME, Sort::Name)?;
        return Ok(take_optional(k, Sort::Bang));
    }
    let Some(inner) = depth.deeper() else {
        return Err(SyntaxError::NestedTooDeep(c.begins));
    };
    let k = c.next();
    let j = type_reference(k, inner)?;
    let e = take(j, Sort::BracketCloses, Sort::BracketCloses)?;
    Ok(take_optional(e, Sort::Bang))
}
