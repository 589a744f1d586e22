// from_ast.rs: the errors of a build, in the order in which the Rust pushes them. The finished rows tell which card stands for a name.
// Stays: that a card is a stored one is asked of each function that reads its name: numbers are words of arrays, and a struct for a number would be made, and its fact proved, at the same calls.
#![tactic(auto)]

ghost use Rattle.std.specs.Prelude.{◌≡◌, ◌++◌, length, true};
ghost use Rattle.definition.specs.Store.{sound};
ghost use Rattle.store_reader.specs.Stored.{stored_headings};
ghost use Rattle.from_ast_collisions.specs.Pushing.{Capacity, push_all};
ghost use Rattle.from_ast_errors.specs.Written.{reading_errors_in, drawing_errors_in, ErrorsAsked, ErrorsWritten};

use crate::building::drawing_errors;
use crate::extensions::TypeExtensions;
use crate::finished::Finished;
use crate::reading::reading_errors;
use definition::Tallies;
use from_ast_collisions::owner::PlacedRows;
use from_ast_collisions::placing::place_rows;
use from_ast_collisions::pushing::Errors;
use from_ast_index::Index;

mod building;
pub mod extensions;
pub mod finished;
pub mod orphans;
pub mod reading;
pub mod redefinitions;

// How many errors arose while reading documents and while building, and the tallies of all.
#[derive(Clone, Copy)]
pub struct ErrorCounts {
    pub reading: u32,
    pub drawing: u32,
    pub tallies: Tallies,
}

// Pushes the errors of reading and then those of building; answers how many errors there were in between.
#[tactic(auto, using(from_ast_collisions::proofs::Push::first_capacity, from_ast_collisions::proofs::Push::second_capacity, from_ast_collisions::proofs::Push::both_pushed, crate::proofs::Written::headings_held, crate::proofs::Written::extensions_held, crate::proofs::Written::extensions_ascend, crate::proofs::Written::orphans_held))]
fn push_errors(index: &Index, rows: &PlacedRows, adopt: bool, errors: &mut Errors) -> u32
    requires store_sound { sound index.now.collection.text.now index.now.collection.words.now ≡ true }
    requires capacity { Capacity errors.old
        (reading_errors_in index.now rows.now.rows.now ++ drawing_errors_in adopt index.now rows.now.rows.now) }
    ensures pushed { errors.new ≡ push_all errors.old
        (reading_errors_in index.now rows.now.rows.now ++ drawing_errors_in adopt index.now rows.now.rows.now) }
    ensures reading { result ≡ (push_all errors.old (reading_errors_in index.now rows.now.rows.now)).tallies.total }
{
    let finished = Finished {
        collection: index.collection,
        owners: index.owners,
        rows: *rows,
    };
    let extensions = TypeExtensions {
        all: index.extensions,
        starts: index.starts,
        ends: index.ends,
    };
    reading_errors(&finished, &extensions, index.headings, errors);
    let reading = errors.tallies.total;
    drawing_errors(
        &finished,
        index.orphans,
        index.extensions,
        index.headings,
        adopt,
        errors,
    );
    reading
}

// Writes the errors of reading and then those of building, for a store whose rows are built. `places` is scratch.
#[tactic(auto, using(from_ast_collisions::proofs::Push::pushed_reference, crate::proofs::Written::rows_few, crate::proofs::Written::all_capacity, crate::proofs::Written::total_least, crate::proofs::Written::errors_written))]
pub fn write_errors(
    index: &Index,
    adopt: bool,
    rows: &[u32],
    places: &mut [u32],
    words: &mut [u32],
) -> ErrorCounts
    requires { ErrorsAsked index.now adopt rows.now words.old }
    ensures { ErrorsWritten adopt (stored_headings index.now.collection.text.now index.now.collection.words.now) words.old
        words.new result }
{
    place_rows(rows, places);
    let mut errors = Errors::new(words);
    let reading = push_errors(index, &PlacedRows { rows, places }, adopt, &mut errors);
    ErrorCounts {
        reading,
        drawing: errors.tallies.total - reading,
        tallies: errors.tallies,
    }
}
