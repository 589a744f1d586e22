// `SchemaBuilder::build_inner` of schema/from_ast.rs: a store is indexed and built over local arrays of one of three sizes.
#![tactic(auto)]

ghost use Rattle.std.specs.Prelude.{◌≤◌, ◌<◌, length};
ghost use Rattle.definition.specs.Store.{cards_used_of};
ghost use Rattle.from_ast.specs.Built.{BuildAsked, Built};

use definition::layout::CARD_CAPACITY;
use definition::{ABSENT, Drawn, layout};
use from_ast_index::Index;
use from_ast_indexing::Arrays;
use from_ast_rows::Lists;

// Most stores are small, and to make arrays for all cards that a store can hold takes longer than to build those. There are more buckets than cards, so
// that few names share one.
const SMALL_CARDS: usize = 64;

const SMALL_BUCKETS: usize = 128;

const MEDIUM_CARDS: usize = 512;

const MEDIUM_BUCKETS: usize = 1024;

const LARGE_BUCKETS: usize = 8192;

// Builds an indexed store: rows first, then errors by the rows. The scratch serves the rows and then the errors.
#[tactic(auto, using(crate::proofs::Bounds::rows_capacity_lem, crate::proofs::Bounds::rows_within, crate::proofs::Bounds::rows_few))]
fn build_indexed(index: &Index, scratch: &mut [u32], rows: &mut [u32], errors: &mut [u32]) -> Drawn
    requires asked { BuildAsked index.now.collection.text.now index.now.collection.words.now rows.old errors.old }
    requires scratch { cards_used_of index.now.collection.words.now ≤ length scratch.old }
    ensures { Built index.now.collection.text.now index.now.collection.words.now rows.old errors.old result
        rows.new errors.new }
{
    let adopt = index.collection.words[layout::ADOPT_SWITCH] == 1;
    let used = from_ast_rows::write_rows(&Lists::new(index), adopt, scratch, rows);
    let drawn = &rows[..layout::ROW_WORDS * used];
    let told = from_ast_errors::write_errors(index, adopt, drawn, scratch, errors);
    Drawn {
        rows: used as u32,
        reading_errors: told.reading,
        drawing_errors: told.drawing,
        tallies: told.tallies,
    }
}

// Builds a sound store over arrays that have a word for each of its cards. With more words in `buckets` than types, each larger than any place, a
// type's name is seldom sought among others; `build_indexed` then uses them as its scratch.
fn build_over<const CARDS: usize, const BUCKETS: usize>(
    text: &[u8],
    words: &[u32],
    rows: &mut [u32],
    errors: &mut [u32],
) -> Drawn
    requires asked { BuildAsked text.now words.now rows.old errors.old }
    requires cards { cards_used_of words.now ≤ CARDS }
    requires buckets { CARDS < BUCKETS }
    requires few_buckets { BUCKETS < 65536 }
    ensures { Built text.now words.now rows.old errors.old result
        rows.new errors.new }
{
    let mut headings = [0; CARDS];
    let mut hashes = [0; CARDS];
    let mut owners = [0; CARDS];
    let mut types = [0; CARDS];
    let mut orphans = [0; CARDS];
    let mut extensions = [0; CARDS];
    let mut starts = [0; CARDS];
    let mut ends = [0; CARDS];
    let mut buckets = [ABSENT; BUCKETS];
    let arrays = Arrays {
        headings: &mut headings,
        hashes: &mut hashes,
        owners: &mut owners,
        types: &mut types,
        orphans: &mut orphans,
        extensions: &mut extensions,
        starts: &mut starts,
        ends: &mut ends,
    };
    let index = from_ast_indexing::index(text, words, arrays, &mut buckets);
    build_indexed(&index, &mut buckets, rows, errors)
}

// Builds a sound store, over arrays of the size that it needs.
#[tactic(auto, using(store_reader::proofs::Laws::cards_fit_lem))]
pub fn build_inner(text: &[u8], words: &[u32], rows: &mut [u32], errors: &mut [u32]) -> Drawn
    requires { BuildAsked text.now words.now rows.old errors.old }
    ensures { Built text.now words.now rows.old errors.old result
        rows.new errors.new }
{
    let cards = store_reader::cards_used(words);
    if cards <= SMALL_CARDS {
        build_over::<SMALL_CARDS, SMALL_BUCKETS>(text, words, rows, errors)
    } else if cards <= MEDIUM_CARDS {
        build_over::<MEDIUM_CARDS, MEDIUM_BUCKETS>(text, words, rows, errors)
    } else {
        build_over::<CARD_CAPACITY, LARGE_BUCKETS>(text, words, rows, errors)
    }
}
