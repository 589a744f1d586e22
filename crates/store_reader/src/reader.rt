// A reader of a store's cards.
ghost use Rattle.std.specs.Prelude.{◌≡◌};
ghost use Rattle.definition.specs.Cards.{is_part};
ghost use Rattle.store_reader.specs.Cards.{card_kind, NamePart, next_card};
ghost use Rattle.store_reader.specs.Stored.{next_heading};

use crate::card_words::{card_kind, card_word, cards_used};
use ast::{CARD_NAME_AT, CARD_NAME_LEN, kinds};

// Holds the store's text and words, and a card's number as its place.
#[derive(Clone, Copy)]
pub struct CardReader<'a, 'b> {
    pub text: &'a [u8],
    pub words: &'b [u32],
    pub card: usize,
}

impl<'a, 'b> CardReader<'a, 'b> {
    pub fn at(text: &'a [u8], words: &'b [u32], card: usize) -> CardReader<'a, 'b>
        ensures { (result.text ≡ text.entry)
            × (result.words ≡ words.entry)
            × (result.card ≡ card) }
    {
        CardReader { text, words, card }
    }

    pub fn is_part(self) -> bool
        ensures { result ≡ is_part (card_kind self.entry.words.now self.entry.card) }
    {
        kinds::is_part(card_kind(self.words, self.card))
    }

    // Its name, as a part of the store's text.
    #[tactic(auto, unfolding(crate::specs::Cards::name_start, crate::specs::Cards::name_size))]
    pub fn name(self) -> &'a [u8]
        ensures { NamePart self.entry.text self.entry.words.now self.entry.card result }
    {
        let at = card_word(self.words, self.card, CARD_NAME_AT) as usize;
        let len = card_word(self.words, self.card, CARD_NAME_LEN) as usize;
        name::bytes_at(self.text, at, len)
    }

    // The reader one card on; behind the last card it stays.
    #[tactic(auto, unfolding(crate::specs::Cards::next_card))]
    pub fn next(self) -> CardReader<'a, 'b>
        ensures { (result.text ≡ self.entry.text)
            × (result.words ≡ self.entry.words)
            × (result.card ≡ next_card self.entry.words.now self.entry.card) }
    {
        let used = cards_used(self.words);
        let card = if self.card < used {
            self.card + 1
        } else {
            used
        };
        CardReader { card, ..self }
    }
}

// For callers that have plain slices and a card's number: the card's name, as a part of the store's text.
pub fn read_name<'a>(text: &'a [u8], words: &[u32], card: usize) -> &'a [u8]
    ensures { NamePart text.entry words.now card result }
{
    CardReader::at(text, words, card).name()
}

// The first heading after a card, or the number of cards: the reader goes from card to card while it stands at a part.
// Stays: the project's rule asks for a reader that is carried from card to card (docs/DECISIONS.md, "Forms that 01 names").
#[tactic(auto, using(crate::proofs::Words::next_from, crate::proofs::Words::goes_on_lem, crate::proofs::Words::goes_nearer, crate::proofs::Words::stands_still))]
pub fn next_heading(text: &[u8], words: &[u32], card: usize) -> usize
    ensures { result ≡ next_heading words.now card }
{
    let mut reader = CardReader::at(text, words, card).next();
    while reader.is_part() {
        reader = reader.next();
    }
    reader.card
}
