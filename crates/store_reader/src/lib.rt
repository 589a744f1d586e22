// Reading a store's cards by positions. Nothing here trusts the words: what lies past the slices reads as 0 or as empty.
// Names and the next heading are read through a CardReader, which callers need not hold: card_name and next_heading make it for them. A kind that is
// asked of one card alone is in the words, and needs no reader.
#![tactic(auto)]

ghost use Rattle.std.specs.Prelude.{◌≡◌};
ghost use Rattle.store_reader.specs.Stored.{card_name};

use crate::reader::read_name;

pub mod card_words;
pub mod documents;
pub mod reader;

pub use crate::card_words::{card_kind, cards_used};
pub use crate::reader::next_heading;
pub use ast::kinds::is_part;
pub use ast::word;

// The name of the card n, where only its bytes matter.
#[tactic(auto, unfolding(crate::specs::Cards::card_name))]
pub fn card_name<'a>(text: &'a [u8], words: &[u32], n: usize) -> &'a [u8]
    ensures { result.now ≡ card_name text.now words.now n }
{
    read_name(text, words, n)
}
