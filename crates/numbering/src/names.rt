// The names of cards that are given by their words.
ghost use Rattle.std.specs.Prelude.{◌≡◌};
ghost use Rattle.numbering.specs.Named.{named, count};
ghost use Rattle.numbering.specs.Numbers.{one_name};

use definition::layout::CARD_WORDS;

// The cards of a text. A name is a part of the text alone, and may be kept longer than the cards are lent.
#[derive(Clone, Copy)]
pub struct Names<'text, 'cards> {
    pub text: &'text [u8],
    pub cards: &'cards [u32],
}

impl<'text> Names<'text, '_> {
    // How many cards are whole.
    pub fn count(self) -> usize
        ensures { result ≡ count self.entry }
    {
        self.cards.len() / CARD_WORDS
    }

    // The name of a card. Words that are missing count as 0, and so the name is empty.
    pub fn name(self, card: usize) -> &'text [u8]
        ensures { result.now ≡ named self.entry card }
    {
        let card = ast::card_at(self.cards, card);
        name::bytes_at(self.text, card.name_at as usize, card.name_len as usize)
    }

    // Whether two cards have one name, by the bytes.
    #[tactic(auto, unfolding(crate::specs::Numbers::one_name))]
    pub fn is_one(self, a: u32, b: u32) -> bool
        ensures { result ≡ one_name (named self.entry) a b }
    {
        name::same(self.name(a as usize), self.name(b as usize))
    }
}
