// A store with the rows that are lent to its lookups, and refusal 26: what it asks of a row by itself, and one walk over the rows.
#![tactic(auto)]

ghost use Rattle.std.specs.Prelude.{◌≡◌, true, false, ◌/◌, ◌<◌, length, MatchOption};
ghost use Rattle.definition.specs.Store.{account_in, sound};
ghost use Rattle.definition.specs.LentRows.{rows_refusal};
ghost use Rattle.schema_rows.specs.Order.{fits, kind_after, place_after};
ghost use Rattle.schema_rows.specs.Passing.{card_fits, row_passes};
ghost use Rattle.schema_rows.specs.Places.{kind_of, place_of};
ghost use Rattle.schema_rows.specs.Rows.{row_of, row_at, cards_of, rows_of};
ghost use Rattle.definition.specs.Numbers.{told_number};

use ast::kinds;
use cards::Marks;
use definition::ABSENT;
use definition::layout::ROW_WORDS;
use definition::refusal::Refusal;
use order::RowPlace;

pub mod cards;
pub mod order;
pub mod search;

// One row: its kind, its card and its origin.
// Stays: the three are words of rows that C lends, and are compared with words of cards; ABSENT stands in both for none.
#[derive(Clone, Copy)]
pub struct Row {
    pub what: u32,
    pub card: u32,
    pub origin: u32,
}

// A store's text and words, and the rows that are lent with them.
#[derive(Clone, Copy)]
pub struct Schema<'text, 'lent> {
    pub text: &'text [u8],
    pub words: &'lent [u32],
    pub rows: &'lent [u32],
}

impl Schema<'_, '_> {
    pub fn row_count(self) -> usize
        ensures { result ≡ length self.entry.rows.now / 3 }
    {
        self.rows.len() / ROW_WORDS
    }

    // Stays: a type for the numbers of rows would have to name the rows that they count; the searches below hand out numbers with this bound.
    pub fn row(self, i: usize) -> Row
        requires { i < length self.rows.now / 3 }
        ensures { row_of result ≡ row_at self.entry.rows.now i }
    {
        Row {
            what: self.rows[ROW_WORDS * i],
            card: self.rows[ROW_WORDS * i + 1],
            origin: self.rows[ROW_WORDS * i + 2],
        }
    }

    #[tactic(auto, unfolding(crate::specs::Passing::card_fits))]
    fn card_passes(self, row: Row) -> bool
        ensures { result ≡ card_fits self.entry.words.now (row_of row) }
    {
        if row.card == ABSENT {
            return row.what == kinds::SCHEMA_DEFINITION || row.is_default_root();
        }
        (row.card as usize) < store_reader::cards_used(self.words)
            && store_reader::card_kind(self.words, row.card as usize) == row.wanted_kind()
    }

    // What 26 asks of a row by itself.
    #[tactic(auto, using(crate::proofs::Passing::card_is, crate::proofs::Passing::origin_is), unfolding(crate::specs::Passing::row_passes))]
    fn row_passes(self, row: Row) -> bool
        ensures { result ≡ row_passes (cards_of self.entry) (rows_of self.entry) (row_of row) }
    {
        self.card_passes(row) && self.origin_passes(row) && self.default_root_passes(row)
    }

    // Refusal 26: one walk over the rows, and one mark for each stored card.
    pub fn check_rows(self) -> Result<(), Refusal>
        requires { sound self.text.now self.words.now ≡ true }
        ensures { told_number result
            ≡ rows_refusal (account_in self.entry.text.now self.entry.words.now).documents
            self.entry.rows.now }
    {
        if self.rows.len() % ROW_WORDS != 0 {
            return Err(Refusal::RowsUnsound);
        }
        let mut marks = Marks::new();
        // Where the next row stands; None before the first row.
        let mut place = None;
        for i in 0..self.row_count() {
            let row = self.row(i);
            let Some(next) = next_place(place, row.what) else {
                return Err(Refusal::RowsUnsound);
            };
            if !self.row_passes(row) {
                return Err(Refusal::RowsUnsound);
            }
            if !marks.take(row.card) {
                return Err(Refusal::RowsUnsound);
            }
            place = Some(next);
        }
        if place.is_none() {
            return Err(Refusal::RowsUnsound);
        }
        Ok(())
    }
}

// Where the row after one of a kind stands, if that row may come next.
fn next_place(place: Option<RowPlace>, what: u32) -> Option<RowPlace>
    ensures { MatchOption result (fits (kind_of place) (place_of place) what ≡ false)
        (λ next. (fits (kind_of place) (place_of place) what ≡ true)
        × (next.kind ≡ kind_after (kind_of place) what)
        × (next.place ≡ place_after (kind_of place) what)) }
{
    match place {
        Some(place) => place.after(what),
        None => RowPlace::first(what),
    }
}
