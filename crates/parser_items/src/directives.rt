// The directives of a heading, each with its card: 2.12 of the specification, constant.
ghost use Rattle.std.specs.Prelude.{[], ◌∷◌};
ghost use Rattle.definition.specs.Grammar.{part, DirectiveUse, DirectiveUse*};
ghost use Rattle.parser_items.specs.Lists.{MustListed, MayListed, Short};

use crate::cards::Cards;
use crate::ending::end_item;
use ast::kinds::DIRECTIVE;
use parser_lexer::Cursor;
use parser_lexer::sorts::{FIRST_NAME, Sort};
use parser_values::arguments::arguments;
use parser_values::{SyntaxError, take};

// A directive: `@`, a name, and arguments or none.
fn directive_use<'a>(c: Cursor<'a>, cards: &mut Cards) -> Result<Cursor<'a>, SyntaxError>
    requires { Short c }
    ensures { MustListed (part DirectiveUse ∷ []) c.entry result cards.old cards.new }
{
    let name = take(c, Sort::At, Sort::At)?;
    let k = take(name, FIRST_NAME, Sort::Name)?;
    let j = arguments(k)?;
    Ok(end_item(cards, DIRECTIVE, c, name, j))
}

// Directives, as many as stand there.
pub fn directive_uses<'a>(c: Cursor<'a>, cards: &mut Cards) -> Result<Cursor<'a>, SyntaxError>
    requires { Short c }
    ensures { MayListed (part DirectiveUse* ∷ []) c.entry result cards.old cards.new }
{
    let mut k = c;
    while k.sort == Sort::At {
        let j = directive_use(k, cards)?;
        k = j;
    }
    Ok(k)
}
