// Where the rows of headings begin, by their cards: the search for a heading's row need not pass over all rows before it.
ghost use Rattle.std.specs.Prelude.{◌≡◌, ℕ, ◌+◌, ◌<◌, length, get_or};
ghost use Rattle.from_ast_collisions.specs.Placing.{word_values, PlacedFrom, Placed};

use ast::kinds;
use definition::layout;

// The row at word i, where it is a heading's, is where the rows of its card begin from i on.
#[tactic(auto, using(crate::proofs::Places::placed_part, crate::proofs::Places::placed_past, crate::proofs::Places::placed_here))]
fn place_row(rows: &[u32], i: usize, places: &mut [u32])
    requires inside { i + 2 < length rows.now }
    requires fits { i < word_values }
    requires placed { PlacedFrom rows.now places.old (i + 3) }
    ensures { PlacedFrom rows.now places.new i }
{
    let card = rows[i + 1] as usize;
    if rows[i] < kinds::DIRECTIVE && card < places.len() {
        places[card] = i as u32;
    }
}

// Gives each card its place, from the last row to the first: of several rows of a card the first stays.
#[tactic(auto, using(crate::proofs::Places::placed_all, crate::proofs::Places::no_place))]
pub fn place_rows(rows: &[u32], places: &mut [u32])
    requires { length rows.now < word_values }
    ensures { Placed rows.now places.new }
{
    places.fill(0);
    for n in (0..rows.len() / layout::ROW_WORDS).rev() {
        place_row(rows, layout::ROW_WORDS * n, places);
    }
}
