// The check of a document's cards: the lowest fault of each card among its neighbours, and the first faulty card.
#![tactic(auto)]

ghost use Rattle.std.specs.Prelude.{◌≡◌};
ghost use Rattle.definition.specs.Cards.{faults, fault_among, cards_of, card_fault, document_fault};
ghost use Rattle.ast.specs.Cards.{card_of};
ghost use Rattle.definition.specs.Numbers.{told_number};
ghost use Rattle.ast_check.specs.Checks.{place_of, place_with, judged_of, next_of, check_option};

use crate::faults::{DocumentText, Neighbours};
use ast::{Card, kinds};
use definition::layout::CARD_WORDS;
use definition::refusal::{Refusal, Refused};

pub mod faults;

// A document: its text, and the words of its cards.
#[derive(Clone, Copy)]
pub struct Document<'a> {
    pub text: &'a [u8],
    pub cards: &'a [u32],
}

// What a card is judged by: a part by its heading and the part before it, a heading by the heading before it.
#[tactic(auto, unfolding(crate::specs::Checks::judged_of))]
fn judged(before: Neighbours, card: Card) -> Neighbours
    ensures { result ≡ judged_of before card }
{
    if kinds::is_part(card.kind) {
        before
    } else {
        Neighbours {
            heading: None,
            sibling: before.heading,
        }
    }
}

// What stands before the next card.
#[tactic(auto, unfolding(crate::specs::Checks::next_of))]
fn next_neighbours(before: Neighbours, card: Card) -> Neighbours
    ensures { result ≡ next_of before card }
{
    if kinds::is_part(card.kind) {
        Neighbours {
            heading: before.heading,
            sibling: Some(card),
        }
    } else {
        Neighbours {
            heading: Some(card),
            sibling: None,
        }
    }
}

// The first of a card's faults among its neighbours.
#[tactic(auto, unfolding(definition::specs::Cards::faults, definition::specs::Cards::fault, definition::specs::Cards::fault_among))]
fn fault_among(document: DocumentText, near: Neighbours, card: Card) -> Result<(), Refusal>
    ensures { told_number result
        ≡ fault_among (place_of document.entry.text.now document.entry.base document.entry.size near) (card_of card) faults }
{
    if crate::faults::unknown_kind(card) {
        return Err(Refusal::UnknownKind);
    }
    if crate::faults::empty_item(card)
        || crate::faults::item_outside_text(document, card)
        || crate::faults::item_before_sibling_end(near.sibling, card)
        || crate::faults::item_outside_heading(near.heading, card)
    {
        return Err(Refusal::ItemMisplaced);
    }
    if crate::faults::name_outside_item(card) || crate::faults::name_not_item(card) {
        return Err(Refusal::NameMisplaced);
    }
    if crate::faults::name_amiss(card) {
        return Err(Refusal::NamePresence);
    }
    if crate::faults::name_no_name(document.text, card) {
        return Err(Refusal::NameBytes);
    }
    if crate::faults::misplaced(near, card) {
        return Err(Refusal::PartMisplaced);
    }
    Ok(())
}

// The first of a card's faults, with the heading and the part that stand before it.
#[tactic(auto, using(crate::proofs::Walk::judged_place))]
fn fault_after(document: DocumentText, before: Neighbours, card: Card) -> Result<(), Refusal>
    ensures { told_number result
        ≡ fault_among (place_with document.entry.text.now document.entry.base document.entry.size before card) (card_of card) faults }
{
    fault_among(document, judged(before, card), card)
}

// The first faulty card among the cards of a document, with the first of its faults. Words past the last whole card are not looked at.
#[tactic(auto, using(crate::proofs::Walk::faults_all, crate::proofs::Walk::faults_end, crate::proofs::Walk::faults_next))]
pub fn check_cards(document: DocumentText, cards: &[u32]) -> Result<(), Refused>
    ensures { check_option result ≡ card_fault document.entry.text.now document.entry.base document.entry.size (cards_of cards.now) }
{
    let mut before = Neighbours {
        heading: None,
        sibling: None,
    };
    for place in 0..cards.len() / CARD_WORDS {
        let card = ast::card_at(cards, place);
        if let Err(refusal) = fault_after(document, before, card) {
            return Err(Refused { refusal, place });
        }
        before = next_neighbours(before, card);
    }
    Ok(())
}

impl<'a> Document<'a> {
    // The refusals 1 to 5 of a lent document.
    #[tactic(auto, using(crate::proofs::Walk::broken, crate::proofs::Walk::unbroken))]
    pub fn check(self) -> Result<(), Refused>
        ensures { check_option result ≡ document_fault self.entry.text.now self.entry.cards.now }
    {
        if self.cards.len() % CARD_WORDS != 0 {
            return Err(Refusal::CardsNotWhole.into());
        }
        let whole = DocumentText {
            text: self.text,
            base: 0,
            size: self.text.len(),
        };
        check_cards(whole, self.cards)
    }
}
