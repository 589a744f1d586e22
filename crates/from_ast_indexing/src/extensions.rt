// The type extensions of a store, their owners, and the first orphan of each name.
ghost use Rattle.std.specs.Prelude.{◌≡◌, ◌≤◌, ◌<◌, length, get_or, map, take, ℕ};
ghost use Rattle.definition.specs.Store.{cards_used_of};
ghost use Rattle.from_ast_index.specs.Index.{Cards, card_hash};
ghost use Rattle.from_ast_indexing.specs.Entering.{FirstsAre, KnownAre, SameSlices};
ghost use Rattle.from_ast_indexing.specs.Extensions.{
  ExtensionTurn,
  ExtensionsAre,
  OrphanTurn,
  OrphansAre,
};

use crate::entry::{FirstCards, KnownCards};
use ast::kinds;
use definition::ABSENT;
use from_ast_index::{Collection, card_in};
use word_list::WordList;

// One heading: an extension is listed, and the first definition of its name owns it.
fn index_extension(
    collection: &Collection,
    types: &KnownCards,
    card: u32,
    owners: &mut [u32],
    extensions: &mut WordList,
)
    requires stored { card < cards_used_of collection.now.words.now }
    requires known { KnownAre collection.now.text.now collection.now.words.now types.now }
    requires owners { cards_used_of collection.now.words.now ≤ length owners.old }
    requires room { extensions.old.len < length extensions.old.words.now }
    ensures turn { ExtensionTurn collection.now.text.now collection.now.words.now types.now.cards.now card
        owners.old owners.new extensions.old extensions.new }
    ensures room { length extensions.new.words.now ≡ length extensions.old.words.now }
{
    if !kinds::is_type_extension(collection.kind(card)) {
        return;
    }
    extensions.push(card);
    owners[card as usize] = types.find(collection, card).unwrap_or(ABSENT);
}

// All type extensions, and for each the first definition of its name: every definition is known here.
#[tactic(auto, using(crate::proofs::ExtensionsTurns::extensions_none))]
pub fn index_extensions<'a>(
    collection: &Collection,
    headings: &[u32],
    types: &KnownCards,
    owners: &mut [u32],
    extensions: &'a mut [u32],
) -> &'a [u32]
    requires headings { Cards collection.now.text.now collection.now.words.now collection.now.hashes.now headings.now }
    requires known { KnownAre collection.now.text.now collection.now.words.now types.now }
    requires owners { cards_used_of collection.now.words.now ≤ length owners.old }
    requires room { cards_used_of collection.now.words.now ≤ length extensions.old }
    ensures extensions { ExtensionsAre collection.now.text.now collection.now.words.now headings.now types.now.cards.now
        owners.old owners.new result.now (length headings.now) }
    ensures most { length result.now ≤ length headings.now }
{
    let mut list = WordList {
        words: extensions,
        len: 0,
    };
    for card in headings {
        index_extension(collection, types, *card, owners, &mut list);
    }
    list.into_slice()
}

// One extension: where it has no owner it is an orphan, perhaps the first of its name.
#[tactic(auto, using(from_ast_index::proofs::Cards::word_absent, from_ast_index::proofs::Cards::word_present, crate::proofs::ExtensionsTurns::orphan_skipped, crate::proofs::ExtensionsTurns::orphan_entered))]
fn index_orphan(collection: &Collection, owners: &[u32], card: u32, orphans: &mut FirstCards)
    requires stored { card < cards_used_of collection.now.words.now }
    requires owners { cards_used_of collection.now.words.now ≤ length owners.now }
    requires firsts { FirstsAre collection.now.text.now collection.now.words.now orphans.old }
    requires room { orphans.old.len < cards_used_of collection.now.words.now }
    ensures turn { OrphanTurn collection.now.text.now collection.now.words.now owners.now card orphans.old orphans.new }
    ensures firsts { FirstsAre collection.now.text.now collection.now.words.now orphans.new }
    ensures same { SameSlices orphans.old orphans.new }
{
    if card_in(owners[card as usize]).is_some() {
        return;
    }
    orphans.enter(collection, card);
}

// The first orphan of each name, by the buckets that are lent.
#[tactic(auto, using(crate::proofs::EntrySearch::firsts_none, crate::proofs::EntrySearch::firsts_hashed, crate::proofs::ExtensionsTurns::orphans_none, crate::proofs::ExtensionsTurns::orphans_turn))]
fn first_orphans<'a>(
    collection: &Collection,
    owners: &[u32],
    extensions: &[u32],
    orphans: &'a mut [u32],
    hashes: &mut [u32],
    buckets: &mut [u32],
) -> &'a [u32]
    requires extensions { (j : ℕ) → j < length extensions.now → get_or extensions.now j 0
        < cards_used_of collection.now.words.now }
    requires few { length extensions.now ≤ cards_used_of collection.now.words.now }
    requires owners { cards_used_of collection.now.words.now ≤ length owners.now }
    requires room { cards_used_of collection.now.words.now ≤ length orphans.old }
    requires hashes { cards_used_of collection.now.words.now ≤ length hashes.old }
    requires slots { 0 < length buckets.old }
    ensures orphans { OrphansAre collection.now.text.now collection.now.words.now owners.now extensions.now
        result.now (length extensions.now) }
    ensures hashes { take (length result.now) hashes.new
        ≡ map (card_hash collection.now.text.now collection.now.words.now) result.now }
    ensures most { length result.now ≤ length extensions.now }
{
    let mut firsts = FirstCards::new(orphans, hashes, buckets);
    for card in extensions {
        index_orphan(collection, owners, *card, &mut firsts);
    }
    let len = firsts.len;
    &orphans[..len]
}

// The first orphan of each name, and in `hashes` the hash of each. Without a bucket each search is one of all.
pub fn index_orphans<'a>(
    collection: &Collection,
    owners: &[u32],
    extensions: &[u32],
    orphans: &'a mut [u32],
    hashes: &mut [u32],
    buckets: &mut [u32],
) -> &'a [u32]
    requires extensions { (j : ℕ) → j < length extensions.now → get_or extensions.now j 0
        < cards_used_of collection.now.words.now }
    requires few { length extensions.now ≤ cards_used_of collection.now.words.now }
    requires owners { cards_used_of collection.now.words.now ≤ length owners.now }
    requires room { cards_used_of collection.now.words.now ≤ length orphans.old }
    requires hashes { cards_used_of collection.now.words.now ≤ length hashes.old }
    ensures orphans { OrphansAre collection.now.text.now collection.now.words.now owners.now extensions.now
        result.now (length extensions.now) }
    ensures hashes { take (length result.now) hashes.new
        ≡ map (card_hash collection.now.text.now collection.now.words.now) result.now }
    ensures most { length result.now ≤ length extensions.now }
{
    if buckets.is_empty() {
        return first_orphans(collection, owners, extensions, orphans, hashes, &mut [0]);
    }
    first_orphans(collection, owners, extensions, orphans, hashes, buckets)
}
