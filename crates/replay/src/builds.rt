// Drawing, and what is expected of it: the listing, and that nothing is written past what is drawn.
ghost use Rattle.std.specs.Prelude.{◌≤◌};
ghost use Rattle.definition.specs.Refusals.{rows_capacity};

use crate::held::{hold_listing, stays_unwritten, unwritten};
use definition::layout::{ERROR_WORDS, ERRORS_CAPACITY, ROW_WORDS, ROWS_CAPACITY};
use definition::refusal::Refusal;
use definition::{Drawing, Drawn};
use program_io::output::shown::Listing;
use replay_calls::failure::Failure;
use replay_calls::line::Line;
use replay_calls::table::Table;
use std::rt::Files;

// `build R E N K`: how many words of rows and errors are lent, the number of the answer, and of the listing.
pub fn run_build(
    rt: &(impl Files + AllocGlobal + Eprint),
    folder: &str,
    line: &Line,
    table: &mut Table,
) -> Result<(), Failure> {
    let [r, e, number, k] = line.numbers::<4>(1)?;
    if r > ROWS_CAPACITY || e > ERRORS_CAPACITY {
        return Err(Failure::Malformed);
    }
    let mut errors = unwritten::<ERRORS_CAPACITY>();
    let old_rows = table.rows;
    let drawing = draw(table, r, &mut errors[..e]);
    let listing = Listing {
        drawing,
        rows: &table.rows,
        errors: &errors,
    };
    hold_listing(rt, folder, number, k, &listing)?;
    let drawn = rows_drawn(drawing);
    if !table
        .rows
        .iter()
        .skip(drawn)
        .eq(old_rows.iter().skip(drawn))
        || !stays_unwritten(&errors, errors_drawn(drawing))
    {
        return Err(Failure::Changed);
    }
    Ok(())
}

// The rows drawn are lent from now on; a refused drawing leaves what was lent, and counts nothing.
fn draw(table: &mut Table, r: usize, errors: &mut [u32]) -> Result<Drawn, Refusal>
    requires { r ≤ rows_capacity }
{
    let text = &table.store.text[..table.lent.text];
    let words = &table.store.words[..table.lent.words];
    let rows = &mut table.rows[..];
    let drawing = api::build(text, words, &mut rows[..r], errors);
    table.tallies = Drawing::from(drawing).tallies;
    if drawing.is_ok() {
        table.lent.rows = rows_drawn(drawing).min(ROWS_CAPACITY);
    }
    drawing
}

// How many words of rows a drawing writes: none where it is refused.
fn rows_drawn(drawing: Result<Drawn, Refusal>) -> usize {
    match drawing {
        Ok(drawn) => ROW_WORDS * (drawn.rows as usize),
        Err(_) => 0,
    }
}

fn errors_drawn(drawing: Result<Drawn, Refusal>) -> usize {
    match drawing {
        Ok(drawn) => ERROR_WORDS * (drawn.reading_errors as usize + drawn.drawing_errors as usize),
        Err(_) => 0,
    }
}
