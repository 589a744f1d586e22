// Whether a lent document may be filed: the refusals 1 to 5, 23, 24 and 25.
#![tactic(auto)]

ghost use Rattle.std.specs.Prelude.{◌≡◌, ◌≤◌, ◌/◌, length};
ghost use Rattle.definition.specs.Cards.{card_words};
ghost use Rattle.definition.specs.Refusals.{text_capacity, card_capacity};
ghost use Rattle.definition.specs.Store.{text_used_of, cards_used_of};
ghost use Rattle.ast_check.specs.Checks.{check_option};
ghost use Rattle.store_filing_check.specs.FilingRefusal.{capacity_for, lent_refusal};

use ast::word;
use ast_check::Document;
use definition::layout::{
    CARD_CAPACITY, CARD_WORDS, CARDS_USED, DOCUMENT_CAPACITY, DOCUMENT_COUNT, TEXT_CAPACITY,
    TEXT_USED,
};
use definition::refusal::{Refusal, Refused};

// 24 and 25. What is left is compared, since a lent document may be of any length.
#[tactic(auto, using(crate::proofs::Enough::text_full, crate::proofs::Enough::cards_full, crate::proofs::Enough::enough))]
pub fn check_capacity(text_used: u32, cards_used: u32, lent: Document) -> Result<(), Refused>
    requires { (text_used ≤ text_capacity)
        × (cards_used ≤ card_capacity) }
    ensures { check_option result
        ≡ capacity_for text_used cards_used (length lent.entry.text.now) (length lent.entry.cards.now / card_words) }
{
    if TEXT_CAPACITY - (text_used as usize) < lent.text.len() {
        return Err(Refusal::TextFull.into());
    }
    if CARD_CAPACITY - (cards_used as usize) < lent.cards.len() / CARD_WORDS {
        return Err(Refusal::CardsFull.into());
    }
    Ok(())
}

// 1 to 5, then 23, then 24 and 25, by the counts of a sound store.
#[tactic(auto, using(crate::proofs::Enough::lent_faulty, crate::proofs::Enough::lent_full, crate::proofs::Enough::lent_capacity, ast_check::proofs::Told::handed_on), unfolding(definition::specs::Store::document_count, definition::specs::Store::text_used_of, definition::specs::Store::cards_used_of))]
pub fn check_filing(words: &[u32], lent: Document) -> Result<(), Refused>
    requires { (text_used_of words.now ≤ text_capacity)
        × (cards_used_of words.now ≤ card_capacity) }
    ensures { check_option result
        ≡ lent_refusal words.now lent.entry.text.now lent.entry.cards.now }
{
    lent.check()?;
    if word(words, DOCUMENT_COUNT) as usize >= DOCUMENT_CAPACITY {
        return Err(Refusal::DocumentsFull.into());
    }
    check_capacity(word(words, TEXT_USED), word(words, CARDS_USED), lent)
}
