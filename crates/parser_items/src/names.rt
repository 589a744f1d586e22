// Items that are a name alone, joined by a token: the interfaces of a type and the members of a union.
ghost use Rattle.std.specs.Prelude.{[], ◌∷◌, ◌≤◌};
ghost use Rattle.definition.specs.Grammar.{part, Implements?, Members?};
ghost use Rattle.parser_lexer.specs.Sorts.{sort_number};
ghost use Rattle.parser_items.specs.Lists.{MustListed, MayListed, Short};
ghost use Rattle.parser_items.specs.Names.{name_item, NamesListed};

use crate::cards::Cards;
use crate::ending::end_item;
use ast::kinds::{IMPLEMENTS_INTERFACE, UNION_MEMBER};
use parser_lexer::Cursor;
use parser_lexer::sorts::{FIRST_NAME, Sort};
use parser_values::{SyntaxError, take, take_optional};

// A name, with a card of a kind.
fn name_item<'a>(c: Cursor<'a>, cards: &mut Cards, kind: u32) -> Result<Cursor<'a>, SyntaxError>
    requires { Short c }
    ensures { MustListed (name_item kind) c.entry result cards.old cards.new }
{
    let k = take(c, FIRST_NAME, Sort::Name)?;
    Ok(end_item(cards, kind, c, c, k))
}

// A list of names, or none: it begins with a token of one sort, and a token of another stands between names and may stand before the first.
fn names<'a>(
    c: Cursor<'a>,
    cards: &mut Cards,
    opener: Sort,
    joiner: Sort,
    kind: u32,
) -> Result<Cursor<'a>, SyntaxError>
    requires { Short c ×
        (sort_number opener ≤ 54) ×
        (sort_number joiner ≤ 54) }
    ensures { NamesListed (sort_number opener) (sort_number joiner) kind c.entry result cards.old cards.new }
{
    if c.sort != opener {
        return Ok(c);
    }
    let first = c.next();
    let mut k = take_optional(first, joiner);
    loop {
        let j = name_item(k, cards, kind)?;
        if j.sort != joiner {
            return Ok(j);
        }
        k = j.next();
    }
}

// The interfaces of a type, or none: 3.6 of the specification, ImplementsInterfaces.
pub fn interfaces<'a>(c: Cursor<'a>, cards: &mut Cards) -> Result<Cursor<'a>, SyntaxError>
    requires { Short c }
    ensures { MayListed (part Implements? ∷ []) c.entry result cards.old cards.new }
{
    names(c, cards, Sort::Implements, Sort::Amp, IMPLEMENTS_INTERFACE)
}

// The members of a union, or none: 3.8, UnionMemberTypes.
pub fn members<'a>(c: Cursor<'a>, cards: &mut Cards) -> Result<Cursor<'a>, SyntaxError>
    requires { Short c }
    ensures { MayListed (part Members? ∷ []) c.entry result cards.old cards.new }
{
    names(c, cards, Sort::Equals, Sort::Bar, UNION_MEMBER)
}
