// Copying a text, and cards with their spans moved, into the unused part of a store.
ghost use Rattle.std.specs.Prelude.{◌≡◌, ◌+◌, ◌≤◌, ◌<◌, ◌^◌, ◌%◌, length};
ghost use Rattle.definition.specs.Lists.{All, written};
ghost use Rattle.definition.specs.Cards.{card_words, cards_of, words_of_card};
ghost use Rattle.definition.specs.Refusals.{text_capacity};
ghost use Rattle.definition.specs.Store.{moved, moved_words};
ghost use Rattle.ast.specs.Cards.{card_of};
ghost use Rattle.store.specs.Moving.{Within};

use ast::Card;
use definition::layout::CARD_WORDS;

// Copies a text to the front of the part that it is lent.
// Stays: std's copy_from_slice would have the archive for C ask the C library for memmove, which nothing else in it does.
pub fn copy_text(unused: &mut [u8], text: &[u8])
    requires { length text.now ≤ length unused.old }
    ensures { unused.new ≡ written unused.old 0 text.now }
{
    for i in 0..text.len() {
        unused[i] = text[i];
    }
}

// A card as it is stored whose document's text begins at `base`; the absent name, 0 and 0, stays.
#[tactic(auto, unfolding(definition::specs::Store::moved, definition::specs::Cards::is_unnamed))]
fn moved(card: Card, base: u32) -> Card
    requires { (card.item_at + base < 2 ^ 32)
        × (card.name_at + base < 2 ^ 32) }
    ensures { card_of result ≡ moved base (card_of card) }
{
    let is_unnamed = card.name_len == 0 && card.name_at == 0;
    Card {
        item_at: card.item_at + base,
        name_at: if is_unnamed {
            card.name_at
        } else {
            card.name_at + base
        },
        ..card
    }
}

// Writes a card's words from the place `at` on.
// Stays: the place is the card's own in the lent part; a slice cut out for each card would be one more call, and say no more.
#[tactic(auto, unfolding(definition::specs::Cards::words_of_card, definition::specs::Lists::written))]
fn write_card(unused: &mut [u32], at: usize, card: Card)
    requires { at + card_words ≤ length unused.old }
    ensures { unused.new ≡ written unused.old at (words_of_card (card_of card)) }
{
    unused[at..at + CARD_WORDS].copy_from_slice(&[
        card.kind,
        card.item_at,
        card.item_len,
        card.name_at,
        card.name_len,
    ]);
}

// Copies cards to the front of the part that it is lent, their spans moved by base.
#[tactic(auto, using(crate::proofs::Moved::copying_none))]
fn copy_cards(unused: &mut [u32], cards: &[u32], base: u32)
    requires { (length cards.now ≤ length unused.old)
        × (length cards.now % card_words ≡ 0)
        × (base ≤ text_capacity)
        × All (Within text_capacity) (cards_of cards.now) }
    ensures { unused.new ≡ written unused.old 0 (moved_words base (cards_of cards.now)) }
{
    for i in 0..cards.len() / CARD_WORDS {
        let card = moved(ast::card_at(cards, i), base);
        write_card(unused, CARD_WORDS * i, card);
    }
}

// Writes a text into the unused part of the store's text, which begins at used.
// Stays: writing into the lent part that begins at the unused end is a form that the project asks for (docs/DECISIONS.md, "Forms that 01 names").
#[tactic(auto, using(crate::proofs::Copied::tail_written))]
pub fn append_text(text: &mut [u8], used: usize, lent: &[u8])
    requires { used + length lent.now ≤ length text.old }
    ensures { text.new ≡ written text.old used lent.now }
{
    copy_text(&mut text[used..], lent);
}

// Writes cards into the unused part of the store's words, which begins at used, their spans moved by base.
// Stays: the same form, over words; `base` is where the document's text went, and no other place of the store.
#[tactic(auto, using(crate::proofs::Copied::tail_written))]
pub fn append_cards(words: &mut [u32], used: usize, cards: &[u32], base: u32)
    requires { (used + length cards.now ≤ length words.old)
        × (length cards.now % card_words ≡ 0)
        × (base ≤ text_capacity)
        × All (Within text_capacity) (cards_of cards.now) }
    ensures { words.new ≡ written words.old used (moved_words base (cards_of cards.now)) }
{
    copy_cards(&mut words[used..], cards, base);
}
