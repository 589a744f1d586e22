// What opening and filing write: a document's text, cards and row into the unused part of the store, and the counts.
ghost use Rattle.std.specs.Prelude.{◌≡◌, ◌+◌, ◌*◌, ◌≤◌, length, set, [], ◌∷◌, false};
ghost use Rattle.std.proofs.lemmas.List.Edits.{sets};
ghost use Rattle.definition.specs.Refusals.{document};
ghost use Rattle.definition.specs.Store.{documents_at, document_words, filed_text, filed_words, opened_text, opened_words};
ghost use Rattle.store.specs.Filing.{FilingFits, OpeningFits};

use ast_check::Document;
use definition::layout::{
    CARD_WORDS, CARDS_AT, CARDS_USED, DOCUMENT_CARD_COUNT, DOCUMENT_COUNT, DOCUMENT_IGNORED,
    DOCUMENT_TEXT_AT, DOCUMENT_TEXT_LEN, DOCUMENT_WORDS, DOCUMENTS_AT, IGNORE_SWITCH, TEXT_USED,
};
use store_reader::documents::DocumentRow;

// Writes how many documents there are, and how much text and how many cards are used.
#[tactic(auto, using(crate::proofs::Filed::set_lengths))]
fn write_counts(words: &mut [u32], documents: u32, text_used: u32, cards_used: u32)
    requires { documents_at ≤ length words.old }
    ensures { words.new ≡ sets (set words.old 0 documents) 3 (text_used ∷ cards_used ∷ []) }
{
    words[DOCUMENT_COUNT] = documents;
    words[TEXT_USED] = text_used;
    words[CARDS_USED] = cards_used;
}

// Writes the row of the document of a number.
#[tactic(auto, using(crate::proofs::Filed::set_lengths))]
fn write_row(words: &mut [u32], document: usize, row: DocumentRow)
    requires { documents_at + document_words * document + document_words ≤ length words.old }
    ensures { words.new
        ≡ sets words.old (documents_at + document_words * document) (row.text_at ∷ row.text_len ∷ row.card_count ∷ row.ignored ∷ []) }
{
    let at = DOCUMENTS_AT + DOCUMENT_WORDS * document;
    words[at + DOCUMENT_TEXT_AT] = row.text_at;
    words[at + DOCUMENT_TEXT_LEN] = row.text_len;
    words[at + DOCUMENT_CARD_COUNT] = row.card_count;
    words[at + DOCUMENT_IGNORED] = row.ignored;
}

// Files a document that passes 1 to 5 into a store that has room for it.
#[tactic(auto, using(crate::proofs::Filed::text_filed, crate::proofs::Filed::words_filed), unfolding(definition::specs::Store::document_count, definition::specs::Store::ignore_word, definition::specs::Store::text_used_of, definition::specs::Store::cards_used_of))]
pub fn file(text: &mut [u8], words: &mut [u32], lent: Document)
    requires { FilingFits text.old words.old lent.text.now lent.cards.now }
    ensures text_after { text.new
        ≡ filed_text text.old words.old (document false lent.entry.text.now lent.entry.cards.now) }
    ensures words_after { words.new
        ≡ filed_words words.old (document false lent.entry.text.now lent.entry.cards.now) }
{
    let documents = words[DOCUMENT_COUNT];
    let text_used = words[TEXT_USED];
    let cards_used = words[CARDS_USED];
    let row = DocumentRow {
        text_at: text_used,
        text_len: lent.text.len() as u32,
        card_count: (lent.cards.len() / CARD_WORDS) as u32,
        ignored: words[IGNORE_SWITCH],
    };
    let unused = CARDS_AT + CARD_WORDS * cards_used as usize;
    crate::copying::append_text(text, text_used as usize, lent.text);
    write_counts(
        words,
        documents + 1,
        text_used + row.text_len,
        cards_used + row.card_count,
    );
    write_row(words, documents as usize, row);
    crate::copying::append_cards(words, unused, lent.cards, text_used);
}

// Files document 0, over whatever the store held: with both switches off, and as the first of no documents.
pub fn file_built_in(text: &mut [u8], words: &mut [u32], lent: Document)
    requires { OpeningFits text.old words.old lent.text.now lent.cards.now }
    ensures text_after { text.new
        ≡ opened_text text.old (document false lent.entry.text.now lent.entry.cards.now) }
    ensures words_after { words.new
        ≡ opened_words words.old (document false lent.entry.text.now lent.entry.cards.now) }
{
    words[..DOCUMENTS_AT].fill(0);
    file(text, words, lent);
}
