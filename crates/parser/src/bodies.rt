// What follows the name of a heading, or the word `schema`, by the heading's kind.
ghost use Rattle.std.specs.Prelude.{◌≡◌, [], ◌∷◌, ◌≤◌};
ghost use Rattle.definition.specs.Grammar.{part, Roots?, DirectiveUse*};
ghost use Rattle.definition.specs.Machine.{has, first_set_of};
ghost use Rattle.parser_lexer.specs.Sorts.{sort_number};
ghost use Rattle.parser_items.specs.Lists.{MayListed, Short};
ghost use Rattle.parser.specs.Symbols.{last_of, body_of, more_of, rest_of};

use crate::directives::directive_rest;
use ast::kinds::{
    DIRECTIVE_DEFINITION, ENUM_TYPE_DEFINITION, INPUT_OBJECT_TYPE_DEFINITION,
    INTERFACE_TYPE_DEFINITION, OBJECT_TYPE_DEFINITION, SCALAR_TYPE_DEFINITION,
    SCALAR_TYPE_EXTENSION, SCHEMA_DEFINITION, SCHEMA_EXTENSION, UNION_TYPE_DEFINITION,
};
use parser_items::cards::Cards;
use parser_items::{directive_uses, enum_values, fields, input_fields, interfaces, members, roots};
use parser_lexer::Cursor;
use parser_lexer::sorts::Sort;
use parser_values::SyntaxError;

// Roots, or none.
fn optional_roots<'a>(c: Cursor<'a>, cards: &mut Cards) -> Result<Cursor<'a>, SyntaxError>
    requires { Short c }
    ensures { MayListed (part Roots? ∷ []) c.entry result cards.old cards.new }
{
    if c.sort == Sort::BraceOpens {
        return roots(c, cards);
    }
    Ok(c)
}

// What a body ends with.
fn last_part<'a>(c: Cursor<'a>, cards: &mut Cards, kind: u32) -> Result<Cursor<'a>, SyntaxError>
    requires { Short c }
    ensures { MayListed (last_of kind) c.entry result cards.old cards.new }
{
    match kind {
        0..=SCHEMA_DEFINITION => roots(c, cards),
        SCALAR_TYPE_DEFINITION => Ok(c),
        OBJECT_TYPE_DEFINITION..=INTERFACE_TYPE_DEFINITION => fields(c, cards),
        UNION_TYPE_DEFINITION => members(c, cards),
        ENUM_TYPE_DEFINITION => enum_values(c, cards),
        INPUT_OBJECT_TYPE_DEFINITION => input_fields(c, cards),
        _ => optional_roots(c, cards),
    }
}

// The directive uses, and what a body ends with.
fn uses_and_last<'a>(c: Cursor<'a>, cards: &mut Cards, kind: u32) -> Result<Cursor<'a>, SyntaxError>
    requires { Short c }
    ensures { MayListed (part DirectiveUse* ∷ last_of kind) c.entry result cards.old cards.new }
{
    let k = directive_uses(c, cards)?;
    last_part(k, cards, kind)
}

// A body. Objects and interfaces may name interfaces first. Compiled into its callers, as `heading_rest` is: cursors are large to hand over.
#[inline(always)]
fn body<'a>(c: Cursor<'a>, cards: &mut Cards, kind: u32) -> Result<Cursor<'a>, SyntaxError>
    requires { Short c }
    ensures { MayListed (body_of kind) c.entry result cards.old cards.new }
{
    match kind {
        OBJECT_TYPE_DEFINITION..=INTERFACE_TYPE_DEFINITION => {
            let k = interfaces(c, cards)?;
            uses_and_last(k, cards, kind)
        }
        _ => uses_and_last(c, cards, kind),
    }
}

// Whether a token of a sort begins something of an extension's body.
fn begins_more(kind: u32, sort: Sort) -> bool
    requires { (5 ≤ kind) ×
        (kind ≤ 11) }
    ensures { result ≡ has (first_set_of (more_of kind)) (sort_number sort) }
{
    match sort {
        Sort::At => true,
        Sort::Equals => kind == UNION_TYPE_DEFINITION,
        Sort::BraceOpens => match kind {
            SCALAR_TYPE_DEFINITION => false,
            UNION_TYPE_DEFINITION => false,
            _ => true,
        },
        Sort::Implements => match kind {
            OBJECT_TYPE_DEFINITION | INTERFACE_TYPE_DEFINITION => true,
            _ => false,
        },
        _ => false,
    }
}

// The body of an extension, of which something must be there. Its kind is that of the definition which it extends, and 11 for the schema.
fn more<'a>(c: Cursor<'a>, cards: &mut Cards, kind: u32) -> Result<Cursor<'a>, SyntaxError>
    requires { Short c ×
        (5 ≤ kind) ×
        (kind ≤ 11) }
    ensures { MayListed (more_of kind) c.entry result cards.old cards.new }
{
    if begins_more(kind, c.sort) {
        return body(c, cards, kind);
    }
    Err(SyntaxError::NotInGrammar(c.begins))
}

// How far the kind of a type's extension is from that of its definition.
pub const TO_EXTENSION: u32 = SCALAR_TYPE_EXTENSION - SCALAR_TYPE_DEFINITION;

// What follows the name of a heading, or the word `schema`.
#[inline(always)]
pub fn heading_rest<'a>(
    c: Cursor<'a>,
    cards: &mut Cards,
    kind: u32,
) -> Result<Cursor<'a>, SyntaxError>
    requires { Short c ×
        (kind ≤ 17) }
    ensures { MayListed (rest_of kind) c.entry result cards.old cards.new }
{
    match kind {
        0..=DIRECTIVE_DEFINITION => directive_rest(c),
        SCHEMA_DEFINITION..=INPUT_OBJECT_TYPE_DEFINITION => body(c, cards, kind),
        SCHEMA_EXTENSION => more(c, cards, kind),
        _ => more(c, cards, kind - TO_EXTENSION),
    }
}
