// The types of a store: the first definition of each name.
ghost use Rattle.std.specs.Prelude.{◌≡◌, ◌≤◌, ◌<◌, length};
ghost use Rattle.definition.specs.Store.{cards_used_of};
ghost use Rattle.from_ast_index.specs.Index.{Cards};
ghost use Rattle.from_ast_indexing.specs.Entering.{FirstsAre, SameSlices};
ghost use Rattle.from_ast_indexing.specs.Types.{TypeTurn, TypesAre};

use crate::entry::FirstCards;
use ast::kinds;
use from_ast_index::Collection;

// One heading: a definition is the first of its name, or its name's first one owns it.
fn index_type(collection: &Collection, card: u32, owners: &mut [u32], types: &mut FirstCards)
    requires stored { card < cards_used_of collection.now.words.now }
    requires owners { cards_used_of collection.now.words.now ≤ length owners.old }
    requires firsts { FirstsAre collection.now.text.now collection.now.words.now types.old }
    requires room { types.old.len < cards_used_of collection.now.words.now }
    ensures turn { TypeTurn collection.now.text.now collection.now.words.now card owners.old owners.new types.old types.new }
    ensures firsts { FirstsAre collection.now.text.now collection.now.words.now types.new }
    ensures same { SameSlices types.old types.new }
{
    if !kinds::is_type(collection.kind(card)) {
        return;
    }
    owners[card as usize] = types.enter(collection, card);
}

// The first definition of each type, and for each definition the first one of its name.
#[tactic(auto, using(crate::proofs::TypesTurns::types_none))]
pub fn index_types(
    collection: &Collection,
    headings: &[u32],
    owners: &mut [u32],
    types: &mut FirstCards,
)
    requires headings { Cards collection.now.text.now collection.now.words.now collection.now.hashes.now headings.now }
    requires owners { cards_used_of collection.now.words.now ≤ length owners.old }
    requires firsts { FirstsAre collection.now.text.now collection.now.words.now types.old }
    requires none { types.old.len ≡ 0 }
    ensures types { TypesAre collection.now.text.now collection.now.words.now headings.now owners.new types.new (length headings.now) }
    ensures firsts { FirstsAre collection.now.text.now collection.now.words.now types.new }
    ensures same { SameSlices types.old types.new }
{
    for card in headings {
        index_type(collection, *card, owners, types);
    }
}
