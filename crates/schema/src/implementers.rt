// implementers_map of schema/mod.rs: which objects and interfaces list an interface.
ghost use Rattle.std.specs.Prelude.{◌≡◌, true, ◌+◌, ◌/◌, ◌<◌, ◌≤◌, length};
ghost use Rattle.definition.specs.Lists.{written, flat_map};
ghost use Rattle.definition.specs.LentRows.{rows_refusal};
ghost use Rattle.definition.specs.Lookups.{group_words};
ghost use Rattle.definition.specs.Refusals.{groups_capacity};
ghost use Rattle.definition.specs.Store.{account_in, sound};
ghost use Rattle.schema.specs.Gather.{pairs_capacity, pairs_in};
ghost use Rattle.schema.specs.Groups.{pair_found, kind_count, implementers_in, group_at, is_opener, openers_over, groups_over};
ghost use Rattle.schema.specs.InStore.{groups_in};
ghost use Rattle.word_list.specs.Listed.{Appends};

use ast::kinds;
use definition::layout::{CARD_CAPACITY, ROW_WORDS};
use schema_rows::Schema;
use word_list::WordList;

// The words that pairs may have: at most one interface a card, and a pair is as wide as a row.
const PAIRS_CAPACITY: usize = ROW_WORDS * CARD_CAPACITY;

// The interfaces that count, each with the type that lists it, in row order: three words each, the type's kind, the interface's card, the type's card.
fn collect<'list>(schema: Schema, list: &'list mut [u32]) -> &'list [u32]
    requires { length (pairs_in schema.text.now schema.words.now schema.rows.now) ≤ length list.old }
    ensures { result.now
        ≡ pairs_in schema.entry.text.now schema.entry.words.now schema.entry.rows.now }
{
    let mut pairs = WordList {
        words: list,
        len: 0,
    };
    // The last type row.
    let mut owner = None;
    for i in 0..schema.row_count() {
        let row = schema.row(i);
        if kinds::is_type(row.what) {
            owner = Some(i);
            continue;
        }
        let Some(t) = owner else {
            continue;
        };
        if row.what != kinds::IMPLEMENTS_INTERFACE {
            continue;
        }
        if !crate::first_interface::is_first_interface(schema, t, i) {
            continue;
        }
        let type_row = schema.row(t);
        pairs.extend_from_slice(&[type_row.what, row.card, type_row.card]);
    }
    pairs.into_slice()
}

// The pairs that were collected, read as rows.
// Stays: as rows the pairs are searched by the functions of Schema; an array of a struct of their own would need each of these searches again.
#[derive(Clone, Copy)]
struct Pairs<'text, 'lent> {
    schema: Schema<'text, 'lent>,
    ghost few: { length schema.rows.now ≤ pairs_capacity },
}

impl Pairs<'_, '_> {
    // The first pair whose interface has the name.
    fn find(self, name: &[u8]) -> Option<usize>
        ensures { result ≡ pair_found self.entry.schema.text.now self.entry.schema.words.now self.entry.schema.rows.now name.now }
    {
        (0..self.schema.row_count()).find(|&i| self.schema.is_named(self.schema.row(i).card, name))
    }

    // Whether a pair's interface is the first of its name.
    fn is_first(self, i: usize) -> bool
        requires { i < length self.schema.rows.now / 3 }
        ensures { result ≡ is_opener self.entry.schema.text.now self.entry.schema.words.now self.entry.schema.rows.now i }
    {
        let name = self.schema.card_name(self.schema.row(i).card);
        self.find(name) == Some(i)
    }

    // How many types of a kind list the interface of a name.
    fn count_kind(self, name: &[u8], kind: u32) -> u32
        ensures { result
            ≡ kind_count self.entry.schema.text.now self.entry.schema.words.now self.entry.schema.rows.now name.now
            kind }
    {
        (0..self.schema.row_count())
            .filter(|&i| self.schema.is_part_named(self.schema.row(i), kind, name))
            .count() as u32
    }

    // Adds the cards of the types that list the interface of a name.
    fn push_implementers(self, name: &[u8], groups: &mut WordList)
        requires { groups.old.len
            + length (implementers_in self.schema.text.now self.schema.words.now self.schema.rows.now name.now)
            ≤ length groups.old.words.now }
        ensures { Appends groups.old groups.new
            (implementers_in self.entry.schema.text.now self.entry.schema.words.now self.entry.schema.rows.now name.now) }
    {
        for i in 0..self.schema.row_count() {
            let pair = self.schema.row(i);
            if self.schema.is_named(pair.card, name) {
                groups.push(pair.origin);
            }
        }
    }

    // Adds the group that a pair opens.
    fn push_group(self, i: usize, groups: &mut WordList)
        requires { (i < length self.schema.rows.now / 3)
            × (groups.old.len
            + length (group_at self.schema.text.now self.schema.words.now self.schema.rows.now i)
            ≤ length groups.old.words.now) }
        ensures { Appends groups.old groups.new
            (group_at self.entry.schema.text.now self.entry.schema.words.now self.entry.schema.rows.now i) }
    {
        let naming = self.schema.row(i).card;
        let name = self.schema.card_name(naming);
        let objects = self.count_kind(name, kinds::OBJECT_TYPE_DEFINITION);
        let interfaces = self.count_kind(name, kinds::INTERFACE_TYPE_DEFINITION);
        groups.extend_from_slice(&[naming, objects, interfaces]);
        self.push_implementers(name, groups);
    }

    // Writes the groups, each at the first pair of its interface's name. How many there are is handed back.
    fn write_groups(self, list: &mut [u32]) -> usize
        requires { length (groups_over self.schema.text.now self.schema.words.now self.schema.rows.now)
            ≤ length list.old }
        ensures { (result
            ≡ length (openers_over self.entry.schema.text.now self.entry.schema.words.now self.entry.schema.rows.now))
            × (list.new
            ≡ written list.old 0
            (groups_over self.entry.schema.text.now self.entry.schema.words.now self.entry.schema.rows.now)) }
    {
        let mut groups = WordList {
            words: list,
            len: 0,
        };
        // Stays: the count of a filter beside this loop would ask for each pair twice whether it is the first.
        let mut count = 0;
        for i in 0..self.schema.row_count() {
            if self.is_first(i) {
                self.push_group(i, &mut groups);
                count += 1;
            }
        }
        count
    }
}

// The groups, in the order of their naming cards' rows. How many there are is handed back.
pub fn implementers_map(schema: Schema, list: &mut [u32]) -> usize
    requires { (sound schema.text.now schema.words.now ≡ true)
        × (rows_refusal (account_in schema.text.now schema.words.now).documents schema.rows.now ≡ 0)
        × (groups_capacity ≤ length list.old) }
    ensures { (result
        ≡ length (groups_in schema.entry.text.now schema.entry.words.now schema.entry.rows.now))
        × (list.new
        ≡ written list.old 0
        (flat_map group_words
        (groups_in schema.entry.text.now schema.entry.words.now schema.entry.rows.now))) }
{
    let mut words = [0u32; PAIRS_CAPACITY];
    let pairs = Pairs {
        schema: Schema {
            rows: collect(schema, &mut words),
            ..schema
        },
    };
    pairs.write_groups(list)
}
