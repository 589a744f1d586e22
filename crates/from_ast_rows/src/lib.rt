// The catalogue's rows: what schema/from_ast.rs collects.
// Stays: that a card is a stored one is asked of each function that reads its name: numbers are words of arrays, and a struct for a number would be made, and its fact proved, at the same calls.
#![tactic(auto)]

ghost use Rattle.std.specs.Prelude.{◌≡◌, ◌*◌, ◌≤◌, length};
ghost use Rattle.definition.specs.Lists.{flat_map, written};
ghost use Rattle.definition.specs.Catalogue.{rows as catalogue_rows};
ghost use Rattle.definition.specs.Outcomes.{words_of_row};
ghost use Rattle.store_reader.specs.Stored.{stored_headings};
ghost use Rattle.from_ast_rows.specs.Arrays.{Arrays};
ghost use Rattle.from_ast_rows.specs.Parted.{Parted};

use component::Rows;
use from_ast_index::{Collection, Index};
use types::TypeLists;

pub mod directives;
pub mod extensions;
pub mod root_operations;
pub mod types;

// What the rows are made from: of an index all but the owners.
#[derive(Clone, Copy)]
pub struct Lists<'a> {
    pub collection: Collection<'a>,
    pub headings: &'a [u32],
    pub types: &'a [u32],
    pub orphans: &'a [u32],
    pub extensions: &'a [u32],
    pub starts: &'a [u32],
    pub ends: &'a [u32],
    ghost arrays: { Arrays collection.text.now collection.words.now headings.now collection.hashes.now types.now orphans.now extensions.now },
    ghost parted: { Parted collection.text.now collection.words.now types.now extensions.now starts.now ends.now },
}

impl<'a> Lists<'a> {
    // What an index has.
    pub fn new(index: &Index<'a>) -> Lists<'a>
        ensures collection { result.collection ≡ index.now.collection }
        ensures headings { result.headings.now ≡ index.now.headings.now }
        ensures types { result.types.now ≡ index.now.types.now }
        ensures orphans { result.orphans.now ≡ index.now.orphans.now }
        ensures extensions { result.extensions.now ≡ index.now.extensions.now }
        ensures starts { result.starts.now ≡ index.now.starts.now }
        ensures ends { result.ends.now ≡ index.now.ends.now }
    {
        Lists {
            collection: index.collection,
            headings: index.headings,
            types: index.types,
            orphans: index.orphans,
            extensions: index.extensions,
            starts: index.starts,
            ends: index.ends,
        }
    }
}

// Builds the catalogue of a store into rows: the schema, the directive definitions, the defined types, the adopted types. Hands back how many
// rows these are; the words past them stay. `mine` has room for the extensions of one type.
pub fn write_rows(lists: &Lists, adopt: bool, mine: &mut [u32], rows: &mut [u32]) -> usize
    requires few { length lists.now.extensions.now ≤ length mine.old }
    requires room { 3
        * length
        (catalogue_rows adopt (stored_headings lists.now.collection.text.now lists.now.collection.words.now))
        ≤ length rows.old }
    ensures rows { rows.new
        ≡ written rows.old 0
        (flat_map words_of_row
        (catalogue_rows adopt (stored_headings lists.now.collection.text.now lists.now.collection.words.now))) }
    ensures count { result
        ≡ length
        (catalogue_rows adopt (stored_headings lists.now.collection.text.now lists.now.collection.words.now)) }
{
    let Lists {
        collection,
        headings,
        types,
        orphans,
        extensions,
        starts,
        ends,
    } = *lists;
    let mut rows = Rows {
        words: rows,
        used: 0,
    };
    root_operations::push_schema(&collection, headings, adopt, &mut rows);
    directives::directive_definitions(&collection, headings, &mut rows);
    let types = TypeLists {
        collection,
        types,
        orphans,
        extensions,
        starts,
        ends,
    };
    types::push_all_types(&types, adopt, mine, &mut rows);
    rows.used
}
