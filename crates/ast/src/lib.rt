// ast/: cards and their kinds. A card is one parsed item, in `CARD_WORDS` words.
#![tactic(auto)]

ghost use Rattle.std.specs.Prelude.{◌≡◌, ◌*◌, get_or, drop};
ghost use Rattle.definition.specs.Cards.{card_words, card_from};
ghost use Rattle.ast.specs.Cards.{card_of};

use definition::layout::CARD_WORDS;

pub mod kinds;

// Which word of a card is which. specs/Cards.antt has the same numbers.
pub const CARD_KIND: usize = 0;

pub const CARD_ITEM_AT: usize = 1;

pub const CARD_ITEM_LEN: usize = 2;

pub const CARD_NAME_AT: usize = 3;

pub const CARD_NAME_LEN: usize = 4;

// A card's words. An item and a name are spans of the text.
#[derive(Clone, Copy)]
pub struct Card {
    pub kind: u32,
    pub item_at: u32,
    pub item_len: u32,
    pub name_at: u32,
    pub name_len: u32,
}

// The word at an index; a missing one counts as 0.
pub fn word(words: &[u32], i: usize) -> u32
    ensures { result ≡ get_or words.now i 0 }
{
    words.get(i).copied().unwrap_or(0)
}

// The card of a number; words that are missing count as 0.
pub fn card_at(cards: &[u32], i: usize) -> Card
    ensures { card_of result ≡ card_from (drop (card_words * i) cards.now) }
{
    let from = i.saturating_mul(CARD_WORDS).min(cards.len());
    let words = &cards[from..];
    Card {
        kind: word(words, CARD_KIND),
        item_at: word(words, CARD_ITEM_AT),
        item_len: word(words, CARD_ITEM_LEN),
        name_at: word(words, CARD_NAME_AT),
        name_len: word(words, CARD_NAME_LEN),
    }
}

// The kind of the card of a number.
pub fn kind_at(cards: &[u32], i: usize) -> u32
    ensures { result ≡ (card_from (drop (card_words * i) cards.now)).kind }
{
    card_at(cards, i).kind
}
