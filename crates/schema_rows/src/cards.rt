// Refusal 26, the tests of a lent row by itself, and the marks that tell a card which stands in two rows.
ghost use Rattle.std.specs.Prelude.{◌≡◌, true, false, ◌<◌, length, replicate};
ghost use Rattle.definition.specs.Answers.{absent};
ghost use Rattle.definition.specs.Refusals.{card_capacity};
ghost use Rattle.definition.specs.LentRows.{is_default_root, wanted_kind, default_root_passes};
ghost use Rattle.schema_rows.specs.Passing.{origin_fits, is_free, marked};
ghost use Rattle.schema_rows.specs.Rows.{row_of, cards_of, rows_of};

use crate::{Row, Schema};
use ast::kinds;
use definition::ABSENT;
use definition::layout::CARD_CAPACITY;

impl Row {
    // A root row whose card and origin are `-`.
    #[tactic(auto, unfolding(definition::specs::LentRows::is_default_root))]
    pub fn is_default_root(self) -> bool
        ensures { result ≡ is_default_root (row_of self) }
    {
        kinds::is_root(self.what) && self.card == ABSENT && self.origin == ABSENT
    }

    // The kind that a row's card has; a type row with an origin is adopted and has the matching extension.
    #[tactic(auto, using(crate::proofs::Passing::type_most), unfolding(definition::specs::LentRows::wanted_kind, definition::specs::LentRows::is_type_row))]
    pub fn wanted_kind(self) -> u32
        ensures { result ≡ wanted_kind (row_of self) }
    {
        if kinds::is_type(self.what) && self.origin != ABSENT {
            return kinds::extension_of(self.what);
        }
        self.what
    }
}

impl Schema<'_, '_> {
    #[tactic(auto, unfolding(crate::specs::Passing::origin_fits))]
    pub fn origin_passes(self, row: Row) -> bool
        ensures { result ≡ origin_fits self.entry.words.now row.origin }
    {
        row.origin == ABSENT
            || kinds::is_extension(store_reader::card_kind(self.words, row.origin as usize))
    }

    // The first type row of a default root's name is an object.
    pub fn default_root_passes(self, row: Row) -> bool
        ensures { result ≡ default_root_passes (cards_of self.entry) (rows_of self.entry) (row_of row) }
    {
        if !row.is_default_root() {
            return true;
        }
        let Some(t) = self.find_default_root(row.what) else {
            return false;
        };
        self.row(t).what == kinds::OBJECT_TYPE_DEFINITION
    }
}

// Marks a card, if no row before had it; `-` is never marked.
#[tactic(auto, unfolding(crate::specs::Passing::is_free, crate::specs::Passing::marked))]
pub fn mark(marks: &mut [bool], card: u32) -> bool
    requires { (card ≡ absent → ⊥) → card < length marks.old }
    ensures { (result ≡ is_free marks.old card)
        × (is_free marks.old card ≡ true → marks.new ≡ marked marks.old card) }
{
    if card == ABSENT {
        return true;
    }
    if marks[card as usize] {
        return false;
    }
    marks[card as usize] = true;
    true
}

// One mark for each stored card: whether a row had it.
#[derive(Drop)]
pub struct Marks {
    pub marks: [bool; CARD_CAPACITY],
}

impl Marks {
    pub(crate) fn new() -> Marks
        ensures { result.marks ≡ replicate card_capacity false }
    {
        Marks {
            marks: [false; CARD_CAPACITY],
        }
    }

    // Marks a stored card, if no row before had it; `-` is never marked.
    pub fn take(&mut self, card: u32) -> bool
        requires { (card ≡ absent → ⊥) → card < card_capacity }
        ensures { (result ≡ is_free self.old.marks card)
            × (is_free self.old.marks card ≡ true → self.new.marks ≡ marked self.old.marks card) }
    {
        mark(&mut self.marks, card)
    }
}
