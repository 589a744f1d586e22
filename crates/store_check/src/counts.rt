// Whether the counts of a store and its documents' rows are sound: the part of 22 that asks neither text nor cards.
ghost use Rattle.std.specs.Prelude.{◌≡◌, ◌&&◌, ◌+◌, ◌≤◌, eqb, leb, length, get_or};
ghost use Rattle.definition.specs.Refusals.{document_capacity};
ghost use Rattle.definition.specs.Store.{document_count, document_rows, counts_sound, rows_sound};
ghost use Rattle.store_reader.specs.Rows.{row_of};
ghost use Rattle.store_check.specs.Check.{row_follows, sums_sound};

use definition::layout::{
    ADOPT_SWITCH, CARD_CAPACITY, CARDS_USED, DOCUMENT_CAPACITY, DOCUMENT_COUNT, DOCUMENT_IGNORED,
    DOCUMENTS_AT, IGNORE_SWITCH, TEXT_CAPACITY, TEXT_USED,
};
use store_reader::documents::DocumentRow;
use store_reader::word;

// 1 to DOCUMENT_CAPACITY documents, each switch 0 or 1, no more text and cards than there is room for.
#[tactic(auto, unfolding(definition::specs::Store::counts_sound, definition::specs::Store::document_count, definition::specs::Store::adopt_word, definition::specs::Store::ignore_word, definition::specs::Store::text_used_of, definition::specs::Store::cards_used_of))]
pub fn counts_sound(words: &[u32]) -> bool
    ensures { result ≡ counts_sound words.now }
{
    1 <= word(words, DOCUMENT_COUNT)
        && word(words, DOCUMENT_COUNT) as usize <= DOCUMENT_CAPACITY
        && word(words, ADOPT_SWITCH) <= 1
        && word(words, IGNORE_SWITCH) <= 1
        && word(words, TEXT_USED) as usize <= TEXT_CAPACITY
        && word(words, CARDS_USED) as usize <= CARD_CAPACITY
}

// Whether a row begins where the text of the rows before it ends, and its ignore switch has not fallen.
#[tactic(auto, unfolding(crate::specs::Check::row_follows))]
fn row_follows(row: DocumentRow, at: usize, ignored: u32) -> bool
    ensures { result ≡ row_follows (row_of row) at ignored }
{
    row.text_at as usize == at && ignored <= row.ignored
}

// Whether the rows come to the store's counts, and its ignore switch has not fallen.
#[tactic(auto, unfolding(crate::specs::Check::sums_sound, definition::specs::Store::ignore_word, definition::specs::Store::text_used_of, definition::specs::Store::cards_used_of))]
fn sums_sound(words: &[u32], at: usize, cards: usize, ignored: u32) -> bool
    ensures { result ≡ sums_sound words.now at cards ignored }
{
    at == word(words, TEXT_USED) as usize
        && cards == word(words, CARDS_USED) as usize
        && ignored <= word(words, IGNORE_SWITCH)
}

// One pass over the documents' rows: they touch, their counts come to those of the store, and their ignore switches never fall.
#[tactic(auto, using(crate::proofs::Rows::misfollows, crate::proofs::Rows::zero_ignored, crate::proofs::Rows::all_passed), unfolding(definition::specs::Store::document_count))]
pub fn rows_sound(words: &[u32]) -> bool
    requires { (1 ≤ document_count words.now)
        × (document_count words.now ≤ document_capacity) }
    ensures { result ≡ rows_sound words.now (document_rows words.now) }
{
    if word(words, DOCUMENTS_AT + DOCUMENT_IGNORED) != 0 {
        return false;
    }
    let mut at: usize = 0;
    let mut cards: usize = 0;
    let mut ignored: u32 = 0;
    for document in 0..word(words, DOCUMENT_COUNT) as usize {
        let row = DocumentRow::at(words, document);
        if !row_follows(row, at, ignored) {
            return false;
        }
        at += row.text_len as usize;
        cards += row.card_count as usize;
        ignored = row.ignored;
    }
    sums_sound(words, at, cards, ignored)
}
