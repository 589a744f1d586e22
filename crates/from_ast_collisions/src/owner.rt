// A row that parts are merged into, and how it is found among the finished rows.
ghost use Rattle.std.specs.Prelude.{◌≡◌, ◌<◌};
ghost use Rattle.from_ast_collisions.specs.Earlier.{rows_under};
ghost use Rattle.from_ast_collisions.specs.Placing.{Placed};

use crate::merging::seek_row;
use definition::layout;

// The row of a kind and a card, with the rows under it; none stand there where there is no such row.
#[derive(Clone, Copy)]
pub struct Owner<'a> {
    pub rows: &'a [u32],
    pub kind: u32,
    pub card: u32,
    pub under: &'a [u32],
    ghost under_it: { under.now ≡ rows_under kind card rows.now },
}

// The rows under that of what and card.
#[tactic(auto, using(crate::proofs::Turns::row_inside, crate::proofs::Turns::under_sought))]
fn rows_under(rows: &[u32], what: u32, card: u32) -> &[u32]
    ensures { result.now ≡ rows_under what card rows.now }
{
    let under = seek_row(rows, 0, what, card) + layout::ROW_WORDS;
    &rows[under.min(rows.len())..]
}

impl<'a> Owner<'a> {
    // Sought among all rows.
    pub fn new(rows: &'a [u32], kind: u32, card: u32) -> Owner<'a>
        ensures rows { result.rows.now ≡ rows.now }
        ensures kind { result.kind ≡ kind }
        ensures card { result.card ≡ card }
    {
        Owner {
            rows,
            kind,
            card,
            under: rows_under(rows, kind, card),
        }
    }
}

// The finished rows, with the places of the cards that have some.
#[derive(Clone, Copy)]
pub struct PlacedRows<'rows, 'places> {
    pub rows: &'rows [u32],
    pub places: &'places [u32],
    ghost placed: { Placed rows.now places.now },
}

impl<'rows> PlacedRows<'rows, '_> {
    // The row of a heading is sought from its card's place on.
    pub fn owner(&self, kind: u32, card: u32) -> Owner<'rows>
        requires { kind < 20 }
        ensures rows { result.rows.now ≡ self.now.rows.now }
        ensures kind { result.kind ≡ kind }
        ensures card { result.card ≡ card }
    {
        let from = store_reader::word(self.places, card as usize) as usize;
        Owner {
            rows: self.rows,
            kind,
            card,
            under: rows_under(&self.rows[from..], kind, card),
        }
    }
}
