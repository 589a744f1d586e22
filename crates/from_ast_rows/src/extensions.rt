// The extensions that a type takes in, and the rows that they add to its lists.
ghost use Rattle.std.specs.Prelude.{◌≡◌, ◌≤◌, ◌<◌, length, take};
ghost use Rattle.definition.specs.Store.{cards_used_of};
ghost use Rattle.component.specs.Pushed.{HasRoom, Becomes};
ghost use Rattle.component.specs.RowsByCards.{Stored, matching, extend_by_extensions};

use ast::kinds;
use component::Rows;
use from_ast_index::Collection;
use word_list::WordList;

// Lists the extensions that a type takes in, in filing order: those of its name that extend what it is. An adopted type is one of them. Hands
// back how many these are.
#[tactic(auto, using(component::proofs::Matching::kept_end, component::proofs::Matching::kept_miss, component::proofs::Matching::kept_hit, component::proofs::Matching::matching_is, component::proofs::Matching::matching_other, component::proofs::Matching::matching_unlike), unfolding(component::specs::RowsByCards::matching, component::specs::RowsByCards::extension_kind))]
pub fn matching_extensions(
    collection: &Collection,
    extensions: &[u32],
    card: u32,
    mine: &mut [u32],
) -> usize
    requires stored { Stored collection.now.words.now extensions.now }
    requires card_stored { card < cards_used_of collection.now.words.now }
    requires room { length extensions.now ≤ length mine.old }
    ensures count { result ≤ length extensions.now }
    ensures cards { take result mine.new
        ≡ matching collection.now.text.now collection.now.words.now extensions.now card }
{
    let definition = kinds::definition_of(collection.kind(card));
    let mut list = WordList {
        words: mine,
        len: 0,
    };
    for extension in extensions {
        if !collection.same_name(card, *extension) {
            continue;
        }
        if kinds::is_extension_of(collection.kind(*extension), definition) {
            list.push(*extension);
        }
    }
    list.len
}

// Lists them too, and hands out the part of `mine` that has them.
pub fn list_matching<'a>(
    collection: &Collection,
    extensions: &[u32],
    card: u32,
    mine: &'a mut [u32],
) -> &'a [u32]
    requires stored { Stored collection.now.words.now extensions.now }
    requires card_stored { card < cards_used_of collection.now.words.now }
    requires room { length extensions.now ≤ length mine.old }
    ensures { result.now ≡ matching collection.now.text.now collection.now.words.now extensions.now card }
{
    let count = matching_extensions(collection, extensions, card, mine);
    &mine[..count]
}

// Extends a list of a type by the extensions that it takes in.
#[tactic(auto, using(component::proofs::Loops::extends_first, component::proofs::Loops::extends_last), unfolding(component::specs::RowsByCards::extension_rows))]
pub fn type_extensions(
    collection: &Collection,
    extensions: &[u32],
    start: usize,
    kind: u32,
    rows: &mut Rows,
)
    requires stored { Stored collection.now.words.now extensions.now }
    requires begun { start ≤ rows.old.used }
    requires room { HasRoom rows.old
        (extend_by_extensions collection.now.text.now collection.now.words.now kind extensions.now start) }
    ensures { Becomes rows.old rows.new
        (extend_by_extensions collection.now.text.now collection.now.words.now kind extensions.now start) }
{
    for card in extensions {
        rows.extend_ast(collection, start, kind, *card, Some(*card));
    }
}
