// The faults 2 to 5, 27 and 28 of a card, one function each, in the order in which they are asked. Offsets are added as usize, so that no sum wraps.
ghost use Rattle.std.specs.Prelude.{◌≡◌};
ghost use Rattle.definition.specs.Cards.{Place, item_end, name_end, is_unnamed, unknown_kind, empty_item};
ghost use Rattle.definition.specs.Cards.{item_outside_text, item_before_sibling_end, item_outside_heading};
ghost use Rattle.definition.specs.Cards.{name_amiss, name_outside_item, name_no_name, name_not_item, misplaced_under, misplaced};
ghost use Rattle.ast.specs.Cards.{card_of};
ghost use Rattle.ast_check.specs.Neighbours.{neighbour_of};

use ast::{Card, kinds};

// A document's text: the `size` bytes from `base` on of `text`, in which its cards' offsets count.
#[derive(Clone, Copy)]
pub struct DocumentText<'a> {
    pub text: &'a [u8],
    pub base: usize,
    pub size: usize,
}

// The heading that a part stands under, and the card before it among its siblings.
#[derive(Clone, Copy)]
pub struct Neighbours {
    pub heading: Option<Card>,
    pub sibling: Option<Card>,
}

#[tactic(auto, unfolding(definition::specs::Cards::item_end))]
fn item_end(card: Card) -> usize
    ensures { result ≡ item_end (card_of card) }
{
    card.item_at as usize + card.item_len as usize
}

#[tactic(auto, unfolding(definition::specs::Cards::name_end))]
fn name_end(card: Card) -> usize
    ensures { result ≡ name_end (card_of card) }
{
    card.name_at as usize + card.name_len as usize
}

// An absent name is the pair 0, 0.
#[tactic(auto, unfolding(definition::specs::Cards::is_unnamed))]
fn is_unnamed(card: Card) -> bool
    ensures { result ≡ is_unnamed (card_of card) }
{
    card.name_len == 0 && card.name_at == 0
}

#[tactic(auto, unfolding(definition::specs::Cards::unknown_kind))]
pub fn unknown_kind(card: Card) -> bool
    ensures { (p : Place) → result ≡ unknown_kind p (card_of card) }
{
    !(kinds::is_heading(card.kind) || kinds::is_part(card.kind))
}

#[tactic(auto, unfolding(definition::specs::Cards::empty_item))]
pub fn empty_item(card: Card) -> bool
    ensures { (p : Place) → result ≡ empty_item p (card_of card) }
{
    card.item_len == 0
}

// The end of the document's text is never computed: it could pass the largest number.
#[tactic(auto, unfolding(definition::specs::Cards::item_outside_text, definition::specs::Cards::item_end))]
pub fn item_outside_text(document: DocumentText, card: Card) -> bool
    ensures { (p : Place) → p.base ≡ document.entry.base → p.size ≡ document.entry.size → result ≡ item_outside_text p (card_of card) }
{
    let at = card.item_at as usize;
    at < document.base || document.size < item_end(card) - document.base
}

#[tactic(auto, unfolding(definition::specs::Cards::item_before_sibling_end))]
pub fn item_before_sibling_end(sibling: Option<Card>, card: Card) -> bool
    ensures { (p : Place) → p.sibling ≡ neighbour_of sibling → result ≡ item_before_sibling_end p (card_of card) }
{
    let at = card.item_at as usize;
    sibling.is_some_and(|s| at < item_end(s))
}

#[tactic(auto, unfolding(definition::specs::Cards::item_outside_heading))]
pub fn item_outside_heading(heading: Option<Card>, card: Card) -> bool
    ensures { (p : Place) → p.heading ≡ neighbour_of heading → result ≡ item_outside_heading p (card_of card) }
{
    heading.is_some_and(|h| card.item_at < h.item_at || item_end(h) < item_end(card))
}

#[tactic(auto, unfolding(definition::specs::Cards::name_amiss))]
pub fn name_amiss(card: Card) -> bool
    ensures { (p : Place) → result ≡ name_amiss p (card_of card) }
{
    match card.kind {
        kinds::SCHEMA_DEFINITION | kinds::SCHEMA_EXTENSION => !is_unnamed(card),
        kinds::OPERATION_DEFINITION => false,
        _ => is_unnamed(card),
    }
}

#[tactic(auto, unfolding(definition::specs::Cards::name_outside_item))]
pub fn name_outside_item(card: Card) -> bool
    ensures { (p : Place) → result ≡ name_outside_item p (card_of card) }
{
    !is_unnamed(card) && (card.name_at < card.item_at || item_end(card) < name_end(card))
}

#[tactic(auto, unfolding(definition::specs::Cards::name_no_name))]
pub fn name_no_name(text: &[u8], card: Card) -> bool
    ensures { (p : Place) → p.bytes ≡ text.now → result ≡ name_no_name p (card_of card) }
{
    let at = card.name_at as usize;
    let len = card.name_len as usize;
    !is_unnamed(card) && !name::is_valid_syntax(name::bytes_at(text, at, len))
}

// Of an implemented interface and a union member the item is the name: the two spans are equal, not only their bytes. An absent name is not asked.
#[tactic(auto, unfolding(definition::specs::Cards::name_not_item))]
pub fn name_not_item(card: Card) -> bool
    ensures { (p : Place) → result ≡ name_not_item p (card_of card) }
{
    !is_unnamed(card)
        && matches!(card.kind, kinds::IMPLEMENTS_INTERFACE | kinds::UNION_MEMBER)
        && (card.name_at != card.item_at || card.name_len != card.item_len)
}

#[tactic(auto, unfolding(definition::specs::Cards::misplaced_under))]
fn misplaced_under(heading: Card, sibling: Option<Card>, card: Card) -> bool
    ensures { (p : Place) → p.sibling ≡ neighbour_of sibling → result ≡ misplaced_under p (card_of card) (card_of heading) }
{
    let place = kinds::place_of(heading.kind, card.kind);
    kinds::places_under(heading.kind) <= place
        || sibling.is_some_and(|s| place < kinds::place_of(heading.kind, s.kind))
}

#[tactic(auto, unfolding(definition::specs::Cards::misplaced))]
pub fn misplaced(near: Neighbours, card: Card) -> bool
    ensures { (p : Place) → p.heading ≡ neighbour_of near.heading
        → p.sibling ≡ neighbour_of near.sibling
        → result ≡ misplaced p (card_of card) }
{
    kinds::is_part(card.kind)
        && near
            .heading
            .is_none_or(|h| misplaced_under(h, near.sibling, card))
}
