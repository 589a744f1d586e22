// What the errors of a build are told by.
ghost use Rattle.std.specs.Prelude.{◌≡◌, ◌<◌, get_or, MatchOption, ⊤};
ghost use Rattle.std.specs.Option.{unwrap_or};
ghost use Rattle.definition.specs.Answers.{absent};
ghost use Rattle.from_ast_errors.specs.Written.{schema_card};

use ast::kinds;
use from_ast_collisions::owner::{Owner, PlacedRows};
use from_ast_index::{Collection, card_in};

// A collection, the owners of its cards, and its finished rows. Nothing is asked of the words of `owners`, nor that the rows are those of the collection.
#[derive(Clone, Copy)]
pub struct Finished<'index, 'owners, 'rows, 'places> {
    pub collection: Collection<'index>,
    pub owners: &'owners [u32],
    pub rows: PlacedRows<'rows, 'places>,
}

impl<'rows> Finished<'_, '_, 'rows, '_> {
    // The first definition of the name of a heading that defines or extends a type, if there is one.
    pub fn owner(&self, card: u32) -> Option<u32>
        ensures word { unwrap_or result absent ≡ get_or self.now.owners.now card 0 }
        ensures known { MatchOption result ⊤ (λ owner. owner < absent) }
    {
        card_in(store_reader::word(self.owners, card as usize))
    }

    // The schema's row comes first, with the card of the schema definition, or none.
    pub fn schema(&self) -> Owner<'rows>
        ensures rows { result.rows.now ≡ self.now.rows.rows.now }
        ensures kind { result.kind ≡ 4 }
        ensures card { result.card ≡ schema_card self.now.rows.rows.now }
    {
        let card = store_reader::word(self.rows.rows, 1);
        self.rows.owner(kinds::SCHEMA_DEFINITION, card)
    }
}
