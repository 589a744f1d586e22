// Definitions and extensions, each with its heading's card.
ghost use Rattle.std.specs.Prelude.{◌≡◌, [], ◌∷◌, ◌++◌, ◌+◌, ◌-◌, ◌≤◌};
ghost use Rattle.definition.specs.Grammar.{part, mark, named, name, at, heading_ends, Described, Extended};
ghost use Rattle.parser_values.specs.Reads.{Moves};
ghost use Rattle.definition.specs.ItemCards.{ended};
ghost use Rattle.definition.specs.Refusals.{card_capacity, text_capacity};
ghost use Rattle.parser_lexer.specs.Ahead.{Ahead};
ghost use Rattle.parser_lexer.specs.Sorts.{sort_number};
ghost use Rattle.parser_items.specs.Lists.{Short, card_of, put_card};
ghost use Rattle.parser.specs.Symbols.{rest_of};
ghost use Rattle.parser.specs.Headings.{Heading, Defines, ReadOn, Behind};

use crate::bodies::{TO_EXTENSION, heading_rest};
use ast::Card;
use ast::kinds::{
    DIRECTIVE_DEFINITION, ENUM_TYPE_DEFINITION, INPUT_OBJECT_TYPE_DEFINITION,
    INTERFACE_TYPE_DEFINITION, OBJECT_TYPE_DEFINITION, SCALAR_TYPE_DEFINITION, SCHEMA_DEFINITION,
    SCHEMA_EXTENSION, UNION_TYPE_DEFINITION,
};
use parser_items::cards::{Cards, put_card};
use parser_lexer::sorts::{FIRST_NAME, Sort};
use parser_lexer::{Cursor, next_token};
use parser_values::SyntaxError;

// A heading that began at `first` ends before the token ahead of `after`: its card is written, at the number before its parts' cards.
fn end_heading(
    cards: &mut Cards,
    kind: u32,
    first: Cursor,
    name: usize,
    letters: usize,
    after: Cursor,
)
    requires { Short after ×
        (first.begins ≤ after.last) ×
        (name ≤ text_capacity) ×
        (letters ≤ text_capacity) }
    ensures { cards.new ≡
        put_card cards.old card_capacity first.entry.cards (ended after.entry.last (card_of kind first.entry.begins 0 name letters)) }
{
    let card = Card {
        kind,
        item_at: first.begins as u32,
        item_len: (after.last - first.begins) as u32,
        name_at: name as u32,
        name_len: letters as u32,
    };
    put_card(cards, first.cards, card);
}

// The rest of a heading that has no name: of the schema and of its extensions.
fn unnamed<'a>(
    first: Cursor<'a>,
    c: Cursor<'a>,
    cards: &mut Cards,
    kind: u32,
) -> Result<Cursor<'a>, SyntaxError>
    requires { Short c ×
        Behind first c ×
        (kind ≤ 17) }
    ensures { ReadOn first.entry (rest_of kind ++ (mark heading_ends ∷ [])) c.entry (card_of kind first.entry.begins 0 0 0) result cards.old cards.new }
{
    let k = heading_rest(c, cards, kind)?;
    end_heading(cards, kind, first, 0, 0, k);
    Ok(k)
}

// A name, and the rest of its heading.
fn named<'a>(
    first: Cursor<'a>,
    c: Cursor<'a>,
    cards: &mut Cards,
    kind: u32,
) -> Result<Cursor<'a>, SyntaxError>
    requires { Short c ×
        Behind first c ×
        (kind ≤ 17) }
    ensures { ReadOn first.entry (mark named ∷ name ∷ (rest_of kind ++ (mark heading_ends ∷ []))) c.entry (card_of kind first.entry.begins 0 0 0) result cards.old cards.new }
{
    if !c.sort.is_within(FIRST_NAME, Sort::Name) {
        return Err(SyntaxError::NotInGrammar(c.begins));
    }
    let k = heading_rest(c.next(), cards, kind)?;
    end_heading(cards, kind, first, c.begins, c.ends - c.begins, k);
    Ok(k)
}

// The definition of a directive, behind its keyword.
fn directive_definition<'a>(
    first: Cursor<'a>,
    c: Cursor<'a>,
    cards: &mut Cards,
) -> Result<Cursor<'a>, SyntaxError>
    requires { Short c ×
        Behind first c }
    ensures { ReadOn first.entry (at ∷ mark named ∷ name ∷ (rest_of 3 ++ (mark heading_ends ∷ []))) c.entry (card_of 3 first.entry.begins 0 0 0) result cards.old cards.new }
{
    if c.sort != Sort::At {
        return Err(SyntaxError::NotInGrammar(c.begins));
    }
    let k = c.next();
    named(first, k, cards, DIRECTIVE_DEFINITION)
}

// The kind of a type's definition, by its keyword.
fn type_kind(sort: Sort) -> u32
    requires { (21 ≤ sort_number sort) ×
        (sort_number sort ≤ 26) }
    ensures { result ≡ sort_number sort - 16 }
{
    match sort {
        Sort::Scalar => SCALAR_TYPE_DEFINITION,
        Sort::Type => OBJECT_TYPE_DEFINITION,
        Sort::Interface => INTERFACE_TYPE_DEFINITION,
        Sort::Union => UNION_TYPE_DEFINITION,
        Sort::Enum => ENUM_TYPE_DEFINITION,
        _ => INPUT_OBJECT_TYPE_DEFINITION,
    }
}

// A definition that began at `first`, from its keyword on. Its card is counted with the keyword. Compiled into its callers: cursors are large to hand over.
#[inline(always)]
fn described<'a>(
    first: Cursor<'a>,
    c: Cursor<'a>,
    cards: &mut Cards,
) -> Result<Cursor<'a>, SyntaxError>
    requires { Short c ×
        (first.begins ≤ c.begins) ×
        (first.cards ≤ c.last) }
    ensures { (Heading c.entry.text.now first.entry (part Described ∷ mark heading_ends ∷ []) c.entry (card_of 0 first.entry.begins 0 0 0) →
        Defines c.entry.text.now first.entry result cards.old cards.new) ×
        Moves c.entry.text.now c.entry result }
{
    let sort = c.sort;
    if !sort.is_within(Sort::Schema, Sort::Directive) {
        return Err(SyntaxError::NotInGrammar(c.begins));
    }
    let k = next_token(c.text, c.ends, first.cards + 1);
    match sort {
        Sort::Schema => unnamed(first, k, cards, SCHEMA_DEFINITION),
        Sort::Directive => directive_definition(first, k, cards),
        _ => named(first, k, cards, type_kind(sort)),
    }
}

// An extension that began at `first`, behind the word `extend`.
fn extended<'a>(
    first: Cursor<'a>,
    c: Cursor<'a>,
    cards: &mut Cards,
) -> Result<Cursor<'a>, SyntaxError>
    requires { Short c ×
        (first.begins ≤ c.begins) ×
        (first.cards ≤ c.last) }
    ensures { (Heading c.entry.text.now first.entry (part Extended ∷ mark heading_ends ∷ []) c.entry (card_of 0 first.entry.begins 0 0 0) →
        Defines c.entry.text.now first.entry result cards.old cards.new) ×
        Moves c.entry.text.now c.entry result }
{
    let sort = c.sort;
    if !sort.is_within(Sort::Schema, Sort::Input) {
        return Err(SyntaxError::NotInGrammar(c.begins));
    }
    let k = next_token(c.text, c.ends, first.cards + 1);
    match sort {
        Sort::Schema => unnamed(first, k, cards, SCHEMA_EXTENSION),
        _ => named(first, k, cards, type_kind(sort) + TO_EXTENSION),
    }
}

// A definition or an extension.
pub fn definition<'a>(c: Cursor<'a>, cards: &mut Cards) -> Result<Cursor<'a>, SyntaxError>
    requires { Short c }
    ensures { (Ahead c.entry.text.now c.entry → Defines c.entry.text.now c.entry result cards.old cards.new) ×
        Moves c.entry.text.now c.entry result }
{
    match c.sort {
        Sort::Extend => extended(c, next_token(c.text, c.ends, c.cards + 1), cards),
        Sort::String => described(c, next_token(c.text, c.ends, c.cards + 1), cards),
        sort if sort.is_within(Sort::Schema, Sort::Directive) => described(c, c, cards),
        _ => Err(SyntaxError::NotInGrammar(c.begins)),
    }
}
