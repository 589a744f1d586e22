// The arrays that build reads are filled once, from the stored cards.
#![tactic(auto)]

ghost use Rattle.std.specs.Prelude.{◌≡◌, ◌≤◌, ◌<◌, length, true, false};
ghost use Rattle.definition.specs.Cards.{is_part};
ghost use Rattle.definition.specs.Refusals.{card_capacity};
ghost use Rattle.definition.specs.Store.{cards_used_of, words_capacity, sound};
ghost use Rattle.store_reader.specs.Stored.{card_kind};
ghost use Rattle.from_ast_index.specs.Index.{Hashed};
ghost use Rattle.from_ast_indexing.specs.Steps.{HasRoom, HeadingsAre};

use entry::FirstCards;
use from_ast_index::{Collection, Index};
pub use name::hash_of;
use word_list::WordList;

pub mod entry;
pub mod extensions;
pub mod spans;
pub mod types;

// The arrays that an index is made of, lent for as long as it is read.
#[derive(Drop)]
pub struct Arrays<'a> {
    pub headings: &'a mut [u32],
    pub hashes: &'a mut [u32],
    pub owners: &'a mut [u32],
    pub types: &'a mut [u32],
    pub orphans: &'a mut [u32],
    pub extensions: &'a mut [u32],
    pub starts: &'a mut [u32],
    pub ends: &'a mut [u32],
}

// The cards of the headings, in order. The text is for the reader that goes to the next heading.
#[tactic(auto, using(store_reader::proofs::Words::next_after, store_reader::proofs::Words::next_none, crate::proofs::Headings::headings_turn))]
pub fn index_headings<'a>(text: &[u8], words: &[u32], headings: &'a mut [u32]) -> &'a [u32]
    requires few { cards_used_of words.now ≤ card_capacity }
    requires room { cards_used_of words.now ≤ length headings.old }
    requires headed { 0 < cards_used_of words.now → is_part (card_kind words.now 0) ≡ false }
    ensures { HeadingsAre words.now result.now }
{
    let used = store_reader::cards_used(words);
    let mut list = WordList {
        words: headings,
        len: 0,
    };
    let mut card = 0;
    while card < used {
        list.push(card as u32);
        card = store_reader::next_heading(text, words, card);
    }
    list.into_slice()
}

// The hash of each card's name.
#[tactic(auto, using(crate::proofs::HashLaws::hash_turned, crate::proofs::HashLaws::hashes_made))]
pub fn hash_names(text: &[u8], words: &[u32], hashes: &mut [u32])
    requires { (words_capacity ≤ length words.now)
        × (cards_used_of words.now ≤ card_capacity)
        × (cards_used_of words.now ≤ length hashes.old) }
    ensures { Hashed text.now words.now hashes.new }
{
    for i in 0..store_reader::cards_used(words) {
        hashes[i] = hash_of(store_reader::card_name(text, words, i));
    }
}

// Fills all arrays, each of which has a word for each card; what `buckets` holds then means nothing. Large words in `buckets` make it fast. Until
// the starts are noted, their array holds hashes.
#[tactic(auto, using(store_reader::proofs::Laws::cards_fit_lem, store_reader::proofs::Laws::heading_first, crate::proofs::Headings::cards_ready, crate::proofs::EntrySearch::firsts_known))]
pub fn index<'a>(
    text: &'a [u8],
    words: &'a [u32],
    arrays: Arrays<'a>,
    buckets: &mut [u32],
) -> Index<'a>
    requires sound { sound text.now words.now ≡ true }
    requires words { words_capacity ≤ length words.now }
    requires room { HasRoom (cards_used_of words.now) arrays }
    requires slots { 0 < length buckets.old }
    ensures text { result.collection.text.now ≡ text.now }
    ensures words { result.collection.words.now ≡ words.now }
{
    let hashes = arrays.hashes;
    let owners = arrays.owners;
    let starts = arrays.starts;
    let ends = arrays.ends;
    let headings = index_headings(text, words, arrays.headings);
    hash_names(text, words, hashes);
    let collection = Collection {
        text,
        words,
        hashes,
    };
    let mut types = FirstCards::new(arrays.types, starts, buckets);
    types::index_types(&collection, headings, owners, &mut types);
    let extensions = extensions::index_extensions(
        &collection,
        headings,
        &types.known(),
        owners,
        arrays.extensions,
    );
    let FirstCards { cards, len, .. } = types;
    let orphans = extensions::index_orphans(
        &collection,
        owners,
        extensions,
        arrays.orphans,
        starts,
        buckets,
    );
    spans::index_starts(owners, extensions, starts);
    spans::index_ends(owners, extensions, ends);
    Index {
        collection,
        headings,
        owners,
        types: &cards[..len],
        orphans,
        extensions,
        starts,
        ends,
    }
}
