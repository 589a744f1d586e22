// Values: 2.9 of the specification, constant.
ghost use Rattle.std.specs.Prelude.{[], ◌∷◌, ◌-◌};
ghost use Rattle.definition.specs.Grammar.{part, Value, ObjectValue, Default?};
ghost use Rattle.parser_values.specs.Reads.{MustRead, MayRead};

use crate::{Depth, SyntaxError, name_and_colon, take};
use parser_lexer::Cursor;
use parser_lexer::sorts::Sort;

// A value, with the levels of a depth left: one token; a list, which is a level; or an object.
#[cycle(object_value_value)]
pub fn value(c: Cursor, depth: Depth) -> Result<Cursor, SyntaxError>
    ensures { MustRead (part Value ∷ []) c.entry (32 - depth.levels) result }
{
    if c.sort == Sort::BraceOpens {
        return object_value(c, depth);
    }
    if c.sort != Sort::BracketOpens {
        return take(c, Sort::Int, Sort::Name);
    }
    let Some(inner) = depth.deeper() else {
        return Err(SyntaxError::NestedTooDeep(c.begins));
    };
    let mut k = c.next();
    loop {
        if k.sort == Sort::BracketCloses {
            return Ok(k.next());
        }
        let j = value(k, inner)?;
        k = j;
    }
}

// An object value, with the levels of a depth left: fields in braces, which are a level.
#[cycle(object_value_value)]
pub fn object_value(c: Cursor, depth: Depth) -> Result<Cursor, SyntaxError>
    ensures { MustRead (part ObjectValue ∷ []) c.entry (32 - depth.levels) result }
{
    if c.sort != Sort::BraceOpens {
        return Err(SyntaxError::NotInGrammar(c.begins));
    }
    let Some(inner) = depth.deeper() else {
        return Err(SyntaxError::NestedTooDeep(c.begins));
    };
    let mut k = c.next();
    loop {
        if k.sort == Sort::BraceCloses {
            return Ok(k.next());
        }
        let j = name_and_colon(k)?;
        let e = value(j, inner)?;
        k = e;
    }
}

// A default value, or none: 2.10.
pub fn default_value(c: Cursor) -> Result<Cursor, SyntaxError>
    ensures { MayRead (part Default? ∷ []) c.entry 0 result }
{
    if c.sort != Sort::Equals {
        return Ok(c);
    }
    let k = c.next();
    value(k, Depth::full())
}
