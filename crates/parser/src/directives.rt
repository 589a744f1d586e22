// Definitions of directives, behind the name (3.13 of the specification). They have no parts with cards.
ghost use Rattle.parser_values.specs.Reads.{MayRead};
ghost use Rattle.parser.specs.Symbols.{locations, directive_rest};

use parser_lexer::Cursor;
use parser_lexer::sorts::{FIRST_LOCATION, LAST_LOCATION, Sort};
use parser_values::input_values::argument_definitions;
use parser_values::{SyntaxError, take, take_optional};

// Locations joined by `|`, which may stand before the first too.
fn directive_locations(c: Cursor) -> Result<Cursor, SyntaxError>
    ensures { MayRead locations c.entry 0 result }
{
    let mut k = take_optional(c, Sort::Bar);
    loop {
        let j = take(k, FIRST_LOCATION, LAST_LOCATION)?;
        if j.sort != Sort::Bar {
            return Ok(j);
        }
        k = j.next();
    }
}

// The definitions of arguments, `repeatable`, `on` and the locations.
pub fn directive_rest(c: Cursor) -> Result<Cursor, SyntaxError>
    ensures { MayRead directive_rest c.entry 0 result }
{
    let k = argument_definitions(c)?;
    let j = take_optional(k, Sort::Repeatable);
    let e = take(j, Sort::On, Sort::On)?;
    directive_locations(e)
}
