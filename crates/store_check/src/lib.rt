// Whether a store is one that filing can leave: the refusals 21 and 22.
#![tactic(auto)]

ghost use Rattle.std.specs.Prelude.{◌≡◌, ◌≤◌, length};
ghost use Rattle.definition.specs.Refusals.{text_capacity};
ghost use Rattle.definition.specs.Store.{account_in, document_rows, stored_cards, cards_sound, zero_sound};
ghost use Rattle.store_check.specs.Check.{SoundRows, Checked};

use ast_check::Document;
use ast_check::faults::DocumentText;
use definition::layout::{CARD_WORDS, CARDS_AT, DOCUMENT_COUNT, TEXT_CAPACITY, WORDS_CAPACITY};
use definition::refusal::Refusal;
use store_reader::documents::DocumentRow;

pub mod counts;

// Every document's cards pass 2 to 5, 27 and 28 against its own text.
#[tactic(auto, using(ast_check::proofs::Told::refused_some, ast_check::proofs::Told::passed_none, crate::proofs::Sound::rows_held, crate::proofs::Cards::cleared_none, crate::proofs::Cards::cleared_all, crate::proofs::Cards::room, crate::proofs::Cards::cleared_row, crate::proofs::Cards::faulty_row), unfolding(definition::specs::Store::document_count))]
fn cards_sound(text: &[u8], words: &[u32]) -> bool
    requires { SoundRows words.now }
    ensures { result ≡ cards_sound text.now (document_rows words.now) (stored_cards words.now) }
{
    let mut cards: usize = 0;
    for document in 0..words[DOCUMENT_COUNT] as usize {
        let row = DocumentRow::at(words, document);
        let own = DocumentText {
            text,
            base: row.text_at as usize,
            size: row.text_len as usize,
        };
        let count = row.card_count as usize;
        let start = CARDS_AT + CARD_WORDS * cards;
        let end = start + CARD_WORDS * count;
        if ast_check::check_cards(own, &words[start..end]).is_err() {
            return false;
        }
        cards += count;
    }
    true
}

// Document 0 passes 6.
fn zero_sound(text: &[u8], words: &[u32]) -> bool
    requires { (text_capacity ≤ length text.now)
        × SoundRows words.now }
    ensures { result ≡ zero_sound (account_in text.now words.now).documents }
{
    let row = DocumentRow::at(words, 0);
    let len = row.text_len as usize;
    let end = CARDS_AT + CARD_WORDS * row.card_count as usize;
    let built_ins = Document {
        text: &text[..len],
        cards: &words[CARDS_AT..end],
    };
    store_built_in::check_built_in(built_ins).is_ok()
}

// 21, then 22. Each test is asked only where those before it hold.
#[tactic(auto, using(crate::proofs::Checked::short_text, crate::proofs::Checked::short_words, crate::proofs::Checked::counts_unsound, crate::proofs::Checked::rows_unsound, crate::proofs::Checked::cards_unsound, crate::proofs::Checked::zero_unsound))]
pub fn check_store(text: &[u8], words: &[u32]) -> Result<(), Refusal>
    ensures { Checked result text.now words.now }
{
    if text.len() < TEXT_CAPACITY || words.len() < WORDS_CAPACITY {
        return Err(Refusal::StoreTooShort);
    }
    if crate::counts::counts_sound(words)
        && crate::counts::rows_sound(words)
        && cards_sound(text, words)
        && zero_sound(text, words)
    {
        Ok(())
    } else {
        Err(Refusal::StoreUnsound)
    }
}
