// The rows of types, defined or adopted: each its own row and then its lists, `collect_sticky` of schema/from_ast.rs.
ghost use Rattle.std.specs.Prelude.{◌≡◌, ◌∷◌, [], ◌+◌, ◌*◌, ◌≤◌, ◌<◌, length};
ghost use Rattle.definition.specs.Store.{cards_used_of};
ghost use Rattle.component.specs.Pushed.{HasRoom, Becomes, pushed};
ghost use Rattle.from_ast_index.specs.Index.{is_type_extension_kind, own_extensions};
ghost use Rattle.store_reader.specs.Stored.{card_kind};
ghost use Rattle.component.specs.RowsByCards.{
  Stored,
  list_at,
  lists_at,
  type_row_at,
  type_rows_at,
  types_rows_at,
  all_types_rows_at,
};
ghost use Rattle.from_ast_rows.specs.Parted.{Parted};

use crate::extensions::{list_matching, type_extensions};
use ast::kinds;
use component::{Row, Rows};
use from_ast_index::Collection;

// The kinds of a type's lists in their order; those of kinds that a type lacks are empty.
const LISTS: [u32; 6] = [
    kinds::IMPLEMENTS_INTERFACE,
    kinds::DIRECTIVE,
    kinds::FIELD_DEFINITION,
    kinds::UNION_MEMBER,
    kinds::ENUM_VALUE_DEFINITION,
    kinds::INPUT_VALUE_DEFINITION,
];

// A type, defined or adopted, with the extensions that it takes in. An adopted type is the first of its extensions.
#[derive(Clone, Copy)]
struct Type<'a> {
    collection: Collection<'a>,
    card: u32,
    adopted: bool,
    extensions: &'a [u32],
    ghost card_stored: { card < cards_used_of collection.words.now },
    ghost extensions_stored: { Stored collection.words.now extensions.now },
    ghost adopted_is: { adopted ≡ is_type_extension_kind (card_kind collection.words.now card) },
}

impl<'a> Type<'a> {
    // Pushes the type's row: of a definition its own card, of an adopted type its first extension as card and as origin.
    #[tactic(auto, using(component::proofs::Turns::type_row))]
    fn push_row(&self, rows: &mut Rows)
        requires { 3 * (rows.old.used + 1) ≤ length rows.old.words.now }
        ensures { Becomes rows.old rows.new (pushed (type_row_at self.now.collection.words.now self.now.card ∷ [])) }
    {
        rows.push(Row {
            what: kinds::definition_of(self.collection.kind(self.card)),
            card: Some(self.card),
            origin: self.adopted.then_some(self.card),
        });
    }

    // Pushes one list of the type: of a definition its own parts and then those of its extensions, of an adopted type only these.
    #[tactic(auto, using(component::proofs::Loops::two_first, component::proofs::Loops::two_second, component::proofs::Turns::list_defined), unfolding(component::specs::RowsByCards::list_at))]
    fn collect_sticky(&self, kind: u32, rows: &mut Rows)
        requires { HasRoom rows.old
            (pushed (list_at self.now.collection.text.now self.now.collection.words.now self.now.extensions.now self.now.card kind)) }
        ensures { Becomes rows.old rows.new
            (pushed
            (list_at self.now.collection.text.now self.now.collection.words.now self.now.extensions.now self.now.card
            kind)) }
    {
        let start = rows.used;
        if self.adopted {
            type_extensions(&self.collection, self.extensions, start, kind, rows);
            return;
        }
        rows.extend_ast(&self.collection, start, kind, self.card, None);
        type_extensions(&self.collection, self.extensions, start, kind, rows);
    }

    // Pushes the lists of the type.
    #[tactic(auto, using(component::proofs::Loops::pushes_first, component::proofs::Loops::pushes_last), unfolding(definition::specs::Catalogue::under_type))]
    fn collect_lists(&self, rows: &mut Rows)
        requires { HasRoom rows.old
            (pushed (lists_at self.now.collection.text.now self.now.collection.words.now self.now.extensions.now self.now.card)) }
        ensures { Becomes rows.old rows.new
            (pushed
            (lists_at self.now.collection.text.now self.now.collection.words.now self.now.extensions.now self.now.card)) }
    {
        for kind in LISTS {
            self.collect_sticky(kind, rows);
        }
    }
}

// Pushes a type, defined or adopted, whose extensions are among these: its row and its lists.
fn push_type(
    collection: &Collection,
    extensions: &[u32],
    card: u32,
    mine: &mut [u32],
    rows: &mut Rows,
)
    requires stored { Stored collection.now.words.now extensions.now }
    requires card_stored { card < cards_used_of collection.now.words.now }
    requires few { length extensions.now ≤ length mine.old }
    requires room { HasRoom rows.old
        (pushed (type_rows_at collection.now.text.now collection.now.words.now extensions.now card)) }
    ensures { Becomes rows.old rows.new
        (pushed (type_rows_at collection.now.text.now collection.now.words.now extensions.now card)) }
{
    let taken = Type {
        collection: *collection,
        card,
        adopted: kinds::is_type_extension(collection.kind(card)),
        extensions: list_matching(collection, extensions, card, mine),
    };
    taken.push_row(rows);
    taken.collect_lists(rows);
}

// What the types are made from: the cards of the defined types, of the first orphan of each name and of all type extensions. `starts` and `ends` tell
// of a defined type in which part of all extensions its own stand.
#[derive(Clone, Copy)]
pub struct TypeLists<'a> {
    pub collection: Collection<'a>,
    pub types: &'a [u32],
    pub orphans: &'a [u32],
    pub extensions: &'a [u32],
    pub starts: &'a [u32],
    pub ends: &'a [u32],
    ghost types_stored: { Stored collection.words.now types.now },
    ghost orphans_stored: { Stored collection.words.now orphans.now },
    ghost extensions_stored: { Stored collection.words.now extensions.now },
    ghost parted: { Parted collection.text.now collection.words.now types.now extensions.now starts.now ends.now },
}

impl<'a> TypeLists<'a> {
    // The part of all extensions in which those of a type stand.
    #[tactic(auto, using(from_ast_index::proofs::Spans::part_clipped), unfolding(from_ast_index::specs::Index::own_extensions))]
    fn own_extensions(&self, card: u32) -> &'a [u32]
        requires { card < cards_used_of self.now.collection.words.now }
        ensures { result.now
            ≡ own_extensions self.now.extensions.now self.now.starts.now self.now.ends.now card }
    {
        let end = (self.ends[card as usize] as usize).min(self.extensions.len());
        let start = (self.starts[card as usize] as usize).min(end);
        &self.extensions[start..end]
    }
}

// Pushes the adopted types, the first orphans of each name. No array tells where their extensions stand, so each walks all.
// Stays: beside push_defined_types it has one loop with one call; one function with a closure for the extensions would be longer than both.
#[tactic(auto, using(component::proofs::Loops::pushes_first, component::proofs::Loops::pushes_last))]
fn push_adopted_types(lists: &TypeLists, mine: &mut [u32], rows: &mut Rows)
    requires few { length lists.now.extensions.now ≤ length mine.old }
    requires room { HasRoom rows.old
        (pushed
        (types_rows_at lists.now.collection.text.now lists.now.collection.words.now lists.now.orphans.now
        lists.now.extensions.now)) }
    ensures { Becomes rows.old rows.new
        (pushed
        (types_rows_at lists.now.collection.text.now lists.now.collection.words.now lists.now.orphans.now
        lists.now.extensions.now)) }
{
    for card in lists.orphans {
        push_type(&lists.collection, lists.extensions, *card, mine, rows);
    }
}

// Pushes the defined types, each with the part of all extensions in which its own stand: a walk over all of them for each type takes long.
#[tactic(auto, using(component::proofs::Loops::pushes_first, component::proofs::Loops::pushes_last))]
fn push_defined_types(lists: &TypeLists, mine: &mut [u32], rows: &mut Rows)
    requires few { length lists.now.extensions.now ≤ length mine.old }
    requires room { HasRoom rows.old
        (pushed
        (types_rows_at lists.now.collection.text.now lists.now.collection.words.now lists.now.types.now
        lists.now.extensions.now)) }
    ensures { Becomes rows.old rows.new
        (pushed
        (types_rows_at lists.now.collection.text.now lists.now.collection.words.now lists.now.types.now
        lists.now.extensions.now)) }
{
    for card in lists.types {
        push_type(
            &lists.collection,
            lists.own_extensions(*card),
            *card,
            mine,
            rows,
        );
    }
}

// Pushes the defined types and then, adopting, those that the first orphans of each name make.
pub fn push_all_types(lists: &TypeLists, adopt: bool, mine: &mut [u32], rows: &mut Rows)
    requires few { length lists.now.extensions.now ≤ length mine.old }
    requires room { HasRoom rows.old
        (pushed
        (all_types_rows_at lists.now.collection.text.now lists.now.collection.words.now adopt lists.now.types.now
        lists.now.orphans.now lists.now.extensions.now)) }
    ensures { Becomes rows.old rows.new
        (pushed
        (all_types_rows_at lists.now.collection.text.now lists.now.collection.words.now adopt lists.now.types.now
        lists.now.orphans.now lists.now.extensions.now)) }
{
    push_defined_types(lists, mine, rows);
    if !adopt {
        return;
    }
    push_adopted_types(lists, mine, rows);
}
