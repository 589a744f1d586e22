// Searches over lent rows: the first type of a name, and under it the first part of a name.
ghost use Rattle.std.specs.Prelude.{◌≡◌, true, ◌/◌, ◌<◌, length, IfSome};
ghost use Rattle.definition.specs.Names.{same_name};
ghost use Rattle.definition.specs.Cards.{is_root};
ghost use Rattle.definition.specs.Catalogue.{default_name};
ghost use Rattle.definition.specs.LentRows.{is_type_row_named};
ghost use Rattle.definition.specs.Lookups.{is_row_of, is_part_named};
ghost use Rattle.store_reader.specs.Stored.{card_name};
ghost use Rattle.schema_rows.specs.Rows.{row_of, cards_of, rows_of, found_from, type_found};
ghost use Rattle.schema_rows.specs.Search.{part_located};

use crate::{Row, Schema};
use ast::kinds;

// The first type row of a name and under it the first part of a name.
#[derive(Clone, Copy)]
pub struct Located {
    pub owner: Option<usize>,
    pub part: Option<usize>,
}

impl<'text> Schema<'text, '_> {
    // The name of a card, as a part of the store's text; a card that is not stored has the empty name.
    pub fn card_name(self, card: u32) -> &'text [u8]
        ensures { result.now ≡ card_name self.entry.text.now self.entry.words.now card }
    {
        store_reader::card_name(self.text, self.words, card as usize)
    }
}

impl Schema<'_, '_> {
    // Whether a stored card has the name; a card that is not stored has the empty name.
    pub fn is_named(self, card: u32, name: &[u8]) -> bool
        ensures { result ≡ same_name name.now (card_name self.entry.text.now self.entry.words.now card) }
    {
        name::same(name, self.card_name(card))
    }

    // Whether a row is a type row of the name.
    #[tactic(auto, using(crate::proofs::Rows::row_named), unfolding(definition::specs::LentRows::is_type_row_named, definition::specs::LentRows::is_type_row))]
    pub fn is_type_named(self, row: Row, name: &[u8]) -> bool
        ensures { result ≡ is_type_row_named (cards_of self.entry) name.now (row_of row) }
    {
        kinds::is_type(row.what) && self.is_named(row.card, name)
    }

    // Whether a row is a part of the wanted kind and name.
    #[tactic(auto, using(crate::proofs::Rows::row_named), unfolding(definition::specs::Lookups::is_part_named, definition::specs::Lookups::is_row_of))]
    pub fn is_part_named(self, row: Row, kind: u32, name: &[u8]) -> bool
        ensures { result ≡ is_part_named (cards_of self.entry) kind name.now (row_of row) }
    {
        row.what == kind && self.is_named(row.card, name)
    }

    // The first row of a kind.
    pub fn find_row(self, kind: u32) -> Option<usize>
        ensures found { result ≡ found_from (is_row_of kind) 0 (rows_of self.entry) }
        ensures inside { IfSome result (λ i. i < length self.entry.rows.now / 3) }
    {
        (0..self.row_count()).find(|&i| self.row(i).what == kind)
    }

    // The first type row of a name, which is the one that counts.
    pub fn find_type(self, name: &[u8]) -> Option<usize>
        ensures found { result ≡ type_found self.entry name.now }
        ensures inside { IfSome result (λ i. i < length self.entry.rows.now / 3) }
    {
        (0..self.row_count()).find(|&i| self.is_type_named(self.row(i), name))
    }

    // The first type row of the name that a default root of the kind has (specification, 3.3.1).
    // Stays: both callers have the kind as a word of a row and know it for a root's; OperationType would be made of it here and there.
    pub fn find_default_root(self, what: u32) -> Option<usize>
        requires { is_root what ≡ true }
        ensures found { result ≡ type_found self.entry (default_name what) }
        ensures inside { IfSome result (λ i. i < length self.entry.rows.now / 3) }
    {
        match what {
            kinds::QUERY => self.find_type(b"Query"),
            kinds::MUTATION => self.find_type(b"Mutation"),
            _ => self.find_type(b"Subscription"),
        }
    }

    // One search answers for the type and for its part, so that no type is searched twice.
    pub fn find_part(self, owner_name: &[u8], kind: u32, part_name: &[u8]) -> Located
        ensures found { result ≡ part_located self.entry owner_name.now kind part_name.now }
        ensures owner_inside { IfSome result.owner (λ i. i < length self.entry.rows.now / 3) }
        ensures part_inside { IfSome result.part (λ i. i < length self.entry.rows.now / 3) }
    {
        let count = self.row_count();
        let mut owner = None;
        let mut part = None;
        'search: for i in 0..count {
            if self.is_type_named(self.row(i), owner_name) {
                owner = Some(i);
                for j in i + 1..count {
                    let row = self.row(j);
                    if kinds::is_type(row.what) {
                        break 'search;
                    }
                    if self.is_part_named(row, kind, part_name) {
                        part = Some(j);
                        break 'search;
                    }
                }
                break;
            }
        }
        Located { owner, part }
    }
}
