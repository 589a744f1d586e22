// Descriptions: 2.9.4 and 3.2 of the specification.
ghost use Rattle.std.specs.Prelude.{[], ◌∷◌, Ok};
ghost use Rattle.definition.specs.Grammar.{part, Description?};
ghost use Rattle.parser_values.specs.Reads.{MayRead};

use crate::take_optional;
use parser_lexer::Cursor;
use parser_lexer::sorts::Sort;

// A description, or none.
pub fn description(c: Cursor) -> Cursor
    ensures { MayRead (part Description? ∷ []) c.entry 0 (Ok result) }
{
    take_optional(c, Sort::String)
}
