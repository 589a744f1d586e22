// The components of a list, the first of a name staying: component.rs.
#![tactic(auto)]

ghost use Rattle.std.specs.Prelude.{◌≡◌, ◌∷◌, [], ◌+◌, ◌*◌, ◌≤◌, ◌<◌, length};
ghost use Rattle.std.specs.Option.{unwrap_or};
ghost use Rattle.definition.specs.Answers.{absent};
ghost use Rattle.definition.specs.Store.{cards_used_of};
ghost use Rattle.component.specs.Pushed.{filled_of, row_of, HasRoom, Becomes, pushed, used_from, place_of, alike_rows, row_in};
ghost use Rattle.from_ast_index.specs.Index.{same_stored};
ghost use Rattle.component.specs.RowsByCards.{extend_by_row, extend_by_card, extend_by_heading};

use ast::kinds;
use definition::ABSENT;
use definition::layout::ROW_WORDS;
use from_ast_index::Collection;

// One row: what it is, whose card it has, which a default root's has not, and the extension that brought it, if one did.
#[derive(Clone, Copy)]
pub struct Row {
    pub what: u32,
    pub card: Option<u32>,
    pub origin: Option<u32>,
}

// Rows in a lent slice, of which the first ones are used.
// Stays: over a WordList the number of rows, which callers read, would be its length divided by three, and that it is a multiple one more fact.
#[derive(Drop)]
pub struct Rows<'a> {
    pub words: &'a mut [u32],
    pub used: usize,
}

impl<'a> Rows<'a> {
    // Pushes a row after those used. A card and an origin that it has not are written as `-`.
    #[tactic(auto, using(crate::proofs::Pushing::row_pushed), unfolding(definition::specs::Outcomes::words_of_row))]
    pub fn push(&mut self, row: Row)
        requires { 3 * (self.old.used + 1) ≤ length self.old.words.now }
        ensures { Becomes self.old self.new (pushed (row_of row ∷ [])) }
    {
        let at = ROW_WORDS * self.used;
        self.words[at..at + ROW_WORDS].copy_from_slice(&[
            row.what,
            row.card.unwrap_or(ABSENT),
            row.origin.unwrap_or(ABSENT),
        ]);
        self.used += 1;
    }

    // Whether the row at a place is like a row that is no directive use: a root of its kind, or a part of its kind and name.
    #[tactic(auto, using(crate::proofs::Turns::alike_root, crate::proofs::Turns::alike_part, crate::proofs::Turns::alike_none, crate::proofs::Turns::alike_other), unfolding(crate::specs::Pushed::row_in))]
    fn is_alike(&self, collection: &Collection, row: Row, place: usize) -> bool
        requires part { row.what ≡ 20 → ⊥ }
        requires inside { 3 * (place + 1) ≤ length self.now.words.now }
        ensures { result
            ≡ alike_rows (same_stored collection.now.text.now collection.now.words.now) (row_of row)
            (row_in self.now.words.now place) }
    {
        let at = ROW_WORDS * place;
        if row.what != self.words[at] {
            return false;
        }
        let Some(card) = row.card else {
            return kinds::is_root(row.what);
        };
        kinds::is_root(row.what) || collection.same_stored(card, self.words[at + 1])
    }

    // The place of the first row that a row is like, in the list from `start` on. Directive uses all stay.
    #[tactic(auto, using(crate::proofs::Turns::alike_use, crate::proofs::Turns::alike_here, crate::proofs::Turns::alike_next, crate::proofs::Turns::alike_end), unfolding(crate::specs::Pushed::used_from))]
    fn find_alike(&self, collection: &Collection, start: usize, row: Row) -> Option<usize>
        requires { 3 * self.now.used ≤ length self.now.words.now }
        ensures { result
            ≡ place_of (alike_rows (same_stored collection.now.text.now collection.now.words.now) (row_of row)) start
            (used_from start (filled_of self.now)) }
    {
        if row.what == kinds::DIRECTIVE {
            return None;
        }
        for place in start..self.used {
            if self.is_alike(collection, row, place) {
                return Some(place);
            }
        }
        None
    }

    // Pushes a part unless the list from `start` on has one like it: the first stays. Out of line, for most headings have no part of most kinds.
    #[inline(never)]
    pub fn extend_sticky(&mut self, collection: &Collection, start: usize, row: Row)
        requires { HasRoom self.old
            (extend_by_row collection.now.text.now collection.now.words.now (row_of row) start) }
        ensures { Becomes self.old self.new
            (extend_by_row collection.now.text.now collection.now.words.now (row_of row) start) }
    {
        let place = self.find_alike(collection, start, row);
        if place.is_some() {
            return;
        }
        self.push(row);
    }

    // Extends a list of parts of one kind by a card, if the card is of that kind.
    #[tactic(auto, using(crate::proofs::Turns::part_take, crate::proofs::Turns::part_skip))]
    fn extend_part(
        &mut self,
        collection: &Collection,
        start: usize,
        kind: u32,
        card: u32,
        origin: Option<u32>,
    )
        requires { HasRoom self.old
            (extend_by_card collection.now.text.now collection.now.words.now (unwrap_or origin absent) kind card start) }
        ensures { Becomes self.old self.new
            (extend_by_card collection.now.text.now collection.now.words.now (unwrap_or origin absent) kind card start) }
    {
        if collection.kind(card) == kind {
            let row = Row {
                what: kind,
                card: Some(card),
                origin,
            };
            self.extend_sticky(collection, start, row);
        }
    }

    // Extends a list by the parts of its kind under a heading.
    pub fn extend_ast(
        &mut self,
        collection: &Collection,
        start: usize,
        kind: u32,
        heading: u32,
        origin: Option<u32>,
    )
        requires stored { heading < cards_used_of collection.now.words.now }
        requires begun { start ≤ self.old.used }
        requires room { HasRoom self.old
            (extend_by_heading collection.now.text.now collection.now.words.now (unwrap_or origin absent) kind heading start) }
        ensures { Becomes self.old self.new
            (extend_by_heading collection.now.text.now collection.now.words.now (unwrap_or origin absent) kind heading start) }
    {
        for card in heading + 1..collection.cards_used() as u32 {
            if !kinds::is_part(collection.kind(card)) {
                return;
            }
            self.extend_part(collection, start, kind, card, origin);
        }
    }
}
