// What a store's words say of a card by its number. Nothing here trusts them: what lies past the slices reads as 0 or as empty.
ghost use Rattle.std.specs.Prelude.{◌≡◌, ◌<◌};
ghost use Rattle.definition.specs.Cards.{card_words};
ghost use Rattle.definition.specs.Store.{cards_used_of};
ghost use Rattle.store_reader.specs.Cards.{card_word, card_kind};

use ast::word;
use definition::layout::{CARD_WORDS, CARDS_AT, CARDS_USED};

// How many cards the store says it has.
#[tactic(auto, unfolding(definition::specs::Store::cards_used_of))]
pub fn cards_used(words: &[u32]) -> usize
    ensures { result ≡ cards_used_of words.now }
{
    word(words, CARDS_USED) as usize
}

// Word k of the card n.
#[tactic(auto, using(crate::proofs::Cards::word_here, crate::proofs::Cards::word_none), unfolding(definition::specs::Store::cards_used_of))]
pub fn card_word(words: &[u32], n: usize, k: usize) -> u32
    requires { k < card_words }
    ensures { result ≡ card_word words.now n k }
{
    let used = word(words, CARDS_USED) as usize;
    if n < used {
        word(words, CARDS_AT + CARD_WORDS * n + k)
    } else {
        0
    }
}

// What a reader asks of the card n.
#[tactic(auto, unfolding(crate::specs::Cards::card_kind))]
pub fn card_kind(words: &[u32], n: usize) -> u32
    ensures { result ≡ card_kind words.now n }
{
    card_word(words, n, ast::CARD_KIND)
}
