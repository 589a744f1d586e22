// The readers of what has no card of its own: values, type references, arguments, and directives that are not a heading's.
#![tactic(auto)]

ghost use Rattle.std.specs.Prelude.{◌≡◌, [], ◌∷◌, ◌≤◌};
ghost use Rattle.definition.specs.Grammar.{one, name, colon};
ghost use Rattle.parser_lexer.specs.Sorts.{sort_number};
ghost use Rattle.parser_values.specs.Depths.{Deeper};
ghost use Rattle.parser_values.specs.Reads.{FlatRead, OptionalRead};

use parser_lexer::Cursor;
use parser_lexer::sorts::{FIRST_NAME, Sort};

pub mod arguments;
pub mod depth;
pub mod description;
pub mod directives;
pub mod error;
pub mod input_values;
pub mod parentheses;
pub mod types;
pub mod values;

pub use depth::Depth;
pub use error::SyntaxError;

impl Depth {
    // All of them.
    pub fn full() -> Depth
        ensures { result.levels ≡ 32 }
    {
        Depth { levels: 32 }
    }

    // What is left within one more, where there is one.
    pub fn deeper(self) -> Option<Depth>
        ensures { Deeper self result }
    {
        if self.levels == 0 {
            return None;
        }
        Some(Depth {
            levels: self.levels - 1,
        })
    }
}

// A token whose sort lies in a range; any other is refused.
pub fn take(c: Cursor, lo: Sort, hi: Sort) -> Result<Cursor, SyntaxError>
    requires { sort_number hi ≤ 54 }
    ensures { FlatRead (one (sort_number lo) (sort_number hi) ∷ []) c.entry result }
{
    if c.sort.is_within(lo, hi) {
        Ok(c.next())
    } else {
        Err(SyntaxError::NotInGrammar(c.begins))
    }
}

// A token of one sort, or none: any part of the grammar that is just that.
pub fn take_optional(c: Cursor, sort: Sort) -> Cursor
    requires { sort_number sort ≤ 54 }
    ensures { OptionalRead (sort_number sort) c.entry result }
{
    if c.sort == sort { c.next() } else { c }
}

// A name and a colon: what a field of an object and an argument begin with.
pub fn name_and_colon(c: Cursor) -> Result<Cursor, SyntaxError>
    ensures { FlatRead (name ∷ colon ∷ []) c.entry result }
{
    let k = take(c, FIRST_NAME, Sort::Name)?;
    take(k, Sort::Colon, Sort::Colon)
}
