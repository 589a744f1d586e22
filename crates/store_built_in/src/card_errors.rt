// Whether a card gives an error in a document that stands alone: a type whose name a type before it has, or a part that comes again.
ghost use Rattle.std.specs.Prelude.{◌≡◌, ◌*◌, drop};
ghost use Rattle.definition.specs.Lists.{any};
ghost use Rattle.definition.specs.Names.{same_name};
ghost use Rattle.definition.specs.Cards.{card_words, card_from, cards_from};
ghost use Rattle.definition.specs.Headings.{name_of};
ghost use Rattle.ast.specs.Cards.{card_of, cards_between};
ghost use Rattle.store_built_in.specs.Fails.{type_named, alike_cards, heading_fails, card_fails, seen_of};

use ast::{Card, kinds};
use ast_check::Document;

// The bytes of a card's name.
#[tactic(auto, unfolding(definition::specs::Headings::name_of))]
fn name_of(text: &[u8], card: Card) -> &[u8]
    ensures { result.now ≡ name_of text.now (card_of card) }
{
    name::bytes_at(text, card.name_at as usize, card.name_len as usize)
}

// Whether two cards have the same name.
fn have_one_name(text: &[u8], a: Card, b: Card) -> bool
    ensures { result ≡ same_name (name_of text.now (card_of a)) (name_of text.now (card_of b)) }
{
    name::same(name_of(text, a), name_of(text, b))
}

// Whether the card of number i defines a type of the card's name.
#[tactic(auto, unfolding(crate::specs::Fails::type_named))]
fn defines_type(document: Document, card: Card, i: usize) -> bool
    ensures { result
        ≡ type_named document.entry.text.now (name_of document.entry.text.now (card_of card))
        (card_from (drop (card_words * i) document.entry.cards.now)) }
{
    let other = ast::card_at(document.cards, i);
    kinds::is_type(other.kind) && have_one_name(document.text, card, other)
}

// Whether a list holds only the first of two parts, the second of number i: roots of one kind, and parts of one kind and name but for directive
// uses.
#[tactic(auto, unfolding(crate::specs::Fails::alike_cards, definition::specs::Headings::alike, definition::specs::Headings::named_card))]
fn is_alike(document: Document, a: Card, i: usize) -> bool
    ensures { result
        ≡ alike_cards document.entry.text.now (card_of a) (card_from (drop (card_words * i) document.entry.cards.now)) }
{
    let b = ast::card_at(document.cards, i);
    a.kind == b.kind
        && (kinds::is_root(a.kind)
            || (a.kind != kinds::DIRECTIVE && have_one_name(document.text, a, b)))
}

// Whether a card before the number `to` defines a type of the card's name.
fn type_before(document: Document, to: usize, card: Card) -> bool
    ensures { result
        ≡ any (type_named document.entry.text.now (name_of document.entry.text.now (card_of card))) (cards_from to document.entry.cards.now) }
{
    (0..to).any(|i| defines_type(document, card, i))
}

// Whether the card is like one of the cards from the number `from` to before the number `to`.
fn part_before(document: Document, from: usize, to: usize, card: Card) -> bool
    ensures { result
        ≡ any (alike_cards document.entry.text.now (card_of card)) (cards_between document.entry.cards.now from to) }
{
    (from..to).any(|i| is_alike(document, card, i))
}

// Whether the heading of number i gives an error itself: an executable definition, or a type whose name a type before it has. A directive
// defined again takes the place of the built-in one before it.
#[tactic(auto, unfolding(crate::specs::Fails::heading_fails))]
fn heading_fails(document: Document, i: usize, card: Card) -> bool
    ensures { result
        ≡ heading_fails document.entry.text.now (cards_from i document.entry.cards.now) (card_of card) }
{
    card.kind <= kinds::FRAGMENT_DEFINITION
        || (card.kind != kinds::DIRECTIVE_DEFINITION && type_before(document, i, card))
}

// Whether the card of number i gives an error; a part that stands under a type is held against those from the first part there on.
#[tactic(auto, unfolding(crate::specs::Fails::card_fails))]
pub fn card_fails(document: Document, first_part: Option<usize>, i: usize, card: Card) -> bool
    ensures { result
        ≡ card_fails document.entry.text.now (cards_from i document.entry.cards.now)
        (seen_of document.entry.cards.now first_part i) (card_of card) }
{
    if !kinds::is_part(card.kind) {
        return heading_fails(document, i, card);
    }
    match first_part {
        Some(from) => part_before(document, from, i, card),
        None => false,
    }
}
