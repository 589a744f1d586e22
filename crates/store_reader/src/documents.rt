// Which document a card is from: whether that is document 0, and whether the ignore switch was on when it was filed.
ghost use Rattle.std.specs.Prelude.{◌≡◌, ◌+◌, ◌*◌, ◌<◌, ◌^◌, drop};
ghost use Rattle.definition.specs.Store.{documents_at, document_words, document_row_from};
ghost use Rattle.store_reader.specs.Rows.{row_of};
ghost use Rattle.store_reader.specs.Stored.{built_in_count, built_in_at, ignored_at};

use ast::word;
use definition::layout::{
    DOCUMENT_CARD_COUNT, DOCUMENT_COUNT, DOCUMENT_IGNORED, DOCUMENT_TEXT_AT, DOCUMENT_TEXT_LEN,
    DOCUMENT_WORDS, DOCUMENTS_AT,
};

// A document's row: where its text begins and how long it is, how many cards it has, and the ignore switch when it was filed.
#[derive(Clone, Copy)]
pub struct DocumentRow {
    pub text_at: u32,
    pub text_len: u32,
    pub card_count: u32,
    pub ignored: u32,
}

impl DocumentRow {
    // The row of the document of a number.
    #[tactic(auto, unfolding(definition::specs::Store::document_row_from))]
    pub fn at(words: &[u32], document: usize) -> DocumentRow
        requires { document < 2 ^ 32 }
        ensures { row_of result
            ≡ document_row_from (drop (documents_at + document_words * document) words.now) }
    {
        let row = DOCUMENTS_AT + DOCUMENT_WORDS * document;
        DocumentRow {
            text_at: word(words, row + DOCUMENT_TEXT_AT),
            text_len: word(words, row + DOCUMENT_TEXT_LEN),
            card_count: word(words, row + DOCUMENT_CARD_COUNT),
            ignored: word(words, row + DOCUMENT_IGNORED),
        }
    }
}

// How many cards document 0 has: they come first.
#[tactic(auto, unfolding(crate::specs::Stored::built_in_count))]
pub fn built_in_count(words: &[u32]) -> usize
    ensures { result ≡ built_in_count words.now }
{
    word(words, DOCUMENTS_AT + DOCUMENT_CARD_COUNT) as usize
}

#[tactic(auto, unfolding(crate::specs::Stored::built_in_at))]
pub fn built_in_at(words: &[u32], n: usize) -> bool
    ensures { result ≡ built_in_at words.now n }
{
    n < built_in_count(words)
}

// Whether the ignore switch was on when the document was filed that has the card n.
#[tactic(auto, using(crate::proofs::Words::ignored_start, crate::proofs::Words::ignored_found, crate::proofs::Words::ignored_passed, crate::proofs::Words::ignored_over), unfolding(definition::specs::Store::document_count))]
pub fn ignored_at(words: &[u32], n: usize) -> bool
    ensures { result ≡ ignored_at words.now n }
{
    let documents = word(words, DOCUMENT_COUNT) as usize;
    let mut left = n;
    for document in 0..documents {
        let row = DocumentRow::at(words, document);
        let count = row.card_count as usize;
        if left < count {
            return row.ignored == 1;
        }
        left -= count;
    }
    false
}
