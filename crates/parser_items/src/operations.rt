// Root operations: 3.3 of the specification, RootOperationTypeDefinition.
ghost use Rattle.std.specs.Prelude.{◌≡◌, [], ◌∷◌};
ghost use Rattle.definition.specs.Grammar.{part, Root};
ghost use Rattle.parser_lexer.specs.Sorts.{sort_number};
ghost use Rattle.parser_items.specs.Lists.{MustListed, Short};
ghost use Rattle.parser_items.specs.Operations.{operation_kind};

use crate::cards::Cards;
use crate::ending::end_item;
use ast::kinds::{MUTATION, QUERY, SUBSCRIPTION};
use parser_lexer::Cursor;
use parser_lexer::sorts::{FIRST_NAME, Sort};
use parser_values::{SyntaxError, take};

// The kind of the root operation that a word names.
fn operation_kind(sort: Sort) -> Option<u32>
    ensures { result ≡ operation_kind (sort_number sort) }
{
    match sort {
        Sort::Query => Some(QUERY),
        Sort::Mutation => Some(MUTATION),
        Sort::Subscription => Some(SUBSCRIPTION),
        _ => None,
    }
}

// A root operation: the operation, a colon and the root's type, which is the item's name.
pub fn root<'a>(c: Cursor<'a>, cards: &mut Cards) -> Result<Cursor<'a>, SyntaxError>
    requires { Short c }
    ensures { MustListed (part Root ∷ []) c.entry result cards.old cards.new }
{
    let Some(kind) = operation_kind(c.sort) else {
        return Err(SyntaxError::NotInGrammar(c.begins));
    };
    let name = take(c.next(), Sort::Colon, Sort::Colon)?;
    let j = take(name, FIRST_NAME, Sort::Name)?;
    Ok(end_item(cards, kind, c, name, j))
}
