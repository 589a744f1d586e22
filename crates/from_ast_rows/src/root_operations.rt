// The rows of the schema definition: its directive uses and its root operations, set or default, of schema/from_ast.rs.
ghost use Rattle.std.specs.Prelude.{◌≡◌, true, ◌≤◌, ◌<◌, ℕ, Some, MatchOption, ⊤};
ghost use Rattle.std.specs.Option.{unwrap_or};
ghost use Rattle.definition.specs.Lists.{any};
ghost use Rattle.definition.specs.Answers.{absent};
ghost use Rattle.definition.specs.Cards.{is_root};
ghost use Rattle.definition.specs.Catalogue.{default_name};
ghost use Rattle.definition.specs.Store.{cards_used_of};
ghost use Rattle.component.specs.Pushed.{HasRoom, Becomes, pushed};
ghost use Rattle.component.specs.RowsByCards.{
  Stored,
  schema_card,
  extend_by_schema_extensions,
  is_type_kind,
  first_kind,
  kind_named_at,
  has_default,
  any_default,
  extend_by_default,
  sets_root,
  is_implicit,
  schema_list_at,
  schema_lists_at,
  schema_rows_at,
};

use ast::kinds;
use component::{Row, Rows};
use from_ast_index::Collection;

// The kinds of the schema's lists in their order: its directive uses, then the roots, each in a list of at most one.
const LISTS: [u32; 4] = [
    kinds::DIRECTIVE,
    kinds::QUERY,
    kinds::MUTATION,
    kinds::SUBSCRIPTION,
];

// How the schema is made: the card of its definition, if there is one; whether orphans are adopted; and whether default roots belong to it.
#[derive(Clone, Copy)]
pub struct Schema<'a> {
    pub collection: Collection<'a>,
    pub headings: &'a [u32],
    pub card: Option<u32>,
    pub adopt: bool,
    pub implicit: bool,
    ghost headings_stored: { Stored collection.words.now headings.now },
    ghost card_stored: { (c : ℕ) → card ≡ Some c → c < cards_used_of collection.words.now },
}

// The card of the schema definition, which is the first one.
#[tactic(auto, using(crate::proofs::SchemaTurns::first_hit, crate::proofs::SchemaTurns::first_miss, crate::proofs::SchemaTurns::first_end, crate::proofs::SchemaTurns::schema_is, crate::proofs::SchemaTurns::schema_not), unfolding(component::specs::RowsByCards::schema_card))]
fn schema_definition(collection: &Collection, headings: &[u32]) -> Option<u32>
    requires { Stored collection.now.words.now headings.now }
    ensures first { unwrap_or result absent
        ≡ schema_card collection.now.words.now headings.now }
    ensures stored { (c : ℕ) → result ≡ Some c → c < cards_used_of collection.now.words.now }
{
    for card in headings {
        if collection.kind(*card) == kinds::SCHEMA_DEFINITION {
            return Some(*card);
        }
    }
    None
}

// Whether a kind is that of a type extension or, where none are sought, of a type definition.
#[tactic(auto, using(crate::proofs::SchemaTurns::extension_kind_lem))]
fn is_type_kind(kind: u32, extending: bool) -> bool
    ensures { result ≡ is_type_kind extending kind }
{
    if extending {
        kinds::is_type_extension(kind)
    } else {
        kinds::is_type(kind)
    }
}

// The kind of the first heading of a name that extends a type or, where no extension is sought, defines one.
#[tactic(auto, using(crate::proofs::SchemaTurns::first_hit, crate::proofs::SchemaTurns::first_miss, crate::proofs::SchemaTurns::first_end, crate::proofs::SchemaTurns::named_other, crate::proofs::SchemaTurns::named_is, crate::proofs::SchemaTurns::kind_some), unfolding(component::specs::RowsByCards::first_kind))]
fn first_kind(
    collection: &Collection,
    headings: &[u32],
    extending: bool,
    name: &[u8],
) -> Option<u32>
    ensures first { unwrap_or result 0
        ≡ first_kind collection.now.text.now collection.now.words.now headings.now extending
        name.now }
    ensures kind { MatchOption result ⊤ (λ k. 0 < k) }
{
    for card in headings {
        let kind = collection.kind(*card);
        if !is_type_kind(kind, extending) {
            continue;
        }
        if name::same(name, collection.name(*card)) {
            return Some(kind);
        }
    }
    None
}

// The kind of the type of a name: that of its definition, else, adopting, the one that its first extension extends.
#[tactic(auto, using(crate::proofs::SchemaTurns::kind_defined, crate::proofs::SchemaTurns::kind_none, crate::proofs::SchemaTurns::kind_adopted), unfolding(definition::specs::Cards::definition_of))]
fn kind_named(collection: &Collection, headings: &[u32], adopt: bool, name: &[u8]) -> Option<u32>
    ensures { unwrap_or result 0
        ≡ kind_named_at collection.now.text.now collection.now.words.now adopt headings.now
        name.now }
{
    match first_kind(collection, headings, false, name) {
        Some(kind) => Some(kind),
        None if adopt => {
            let extended = first_kind(collection, headings, true, name)?;
            Some(kinds::definition_of(extended))
        }
        None => None,
    }
}

// The name of the type that is a root operation's where none is set.
#[tactic(auto, using(crate::proofs::SchemaTurns::last_root), unfolding(definition::specs::Catalogue::default_name, definition::specs::Names::bytes))]
fn default_name(kind: u32) -> &'static [u8]
    requires { is_root kind ≡ true }
    ensures { result.now ≡ default_name kind }
{
    match kind {
        kinds::QUERY => b"Query",
        kinds::MUTATION => b"Mutation",
        _ => b"Subscription",
    }
}

// Whether an object type has the default name of a root operation.
#[tactic(auto, using(crate::proofs::SchemaTurns::default_is, crate::proofs::SchemaTurns::some_six))]
fn is_default_object(collection: &Collection, headings: &[u32], adopt: bool, kind: u32) -> bool
    requires { is_root kind ≡ true }
    ensures { result
        ≡ has_default collection.now.text.now collection.now.words.now adopt headings.now kind }
{
    kind_named(collection, headings, adopt, default_name(kind))
        == Some(kinds::OBJECT_TYPE_DEFINITION)
}

// Whether there is a default root.
#[tactic(auto, using(crate::proofs::SchemaTurns::some_first, crate::proofs::SchemaTurns::some_second, crate::proofs::SchemaTurns::some_third, from_ast_index::proofs::Lists::never), unfolding(definition::specs::Cards::is_root))]
fn has_implicit_root_operation(collection: &Collection, headings: &[u32], adopt: bool) -> bool
    ensures { result
        ≡ any_default collection.now.text.now collection.now.words.now adopt headings.now }
{
    is_default_object(collection, headings, adopt, kinds::QUERY)
        || is_default_object(collection, headings, adopt, kinds::MUTATION)
        || is_default_object(collection, headings, adopt, kinds::SUBSCRIPTION)
}

// Whether a heading is a schema extension that has a root.
#[tactic(auto, using(crate::proofs::SchemaTurns::root_stop, crate::proofs::SchemaTurns::root_hit, crate::proofs::SchemaTurns::root_miss, crate::proofs::SchemaTurns::root_end, crate::proofs::SchemaTurns::sets_not, crate::proofs::SchemaTurns::sets_is))]
fn sets_root(collection: &Collection, card: u32) -> bool
    requires { card < cards_used_of collection.now.words.now }
    ensures { result ≡ sets_root collection.now.words.now card }
{
    if collection.kind(card) != kinds::SCHEMA_EXTENSION {
        return false;
    }
    for part in card + 1..collection.cards_used() as u32 {
        let kind = collection.kind(part);
        if !kinds::is_part(kind) {
            return false;
        }
        if kinds::is_root(kind) {
            return true;
        }
    }
    false
}

// Whether any schema extension has a root.
#[tactic(auto, using(crate::proofs::SchemaTurns::any_hit, crate::proofs::SchemaTurns::any_miss, crate::proofs::SchemaTurns::any_end))]
fn any_root(collection: &Collection, headings: &[u32]) -> bool
    requires { Stored collection.now.words.now headings.now }
    ensures { result ≡ any (sets_root collection.now.words.now) headings.now }
{
    for card in headings {
        if sets_root(collection, *card) {
            return true;
        }
    }
    false
}

// Whether default roots belong to a schema that has no definition: adopting, if its extensions set no root, and else if there are any.
#[tactic(auto, using(crate::proofs::SchemaTurns::implicit_adopting, crate::proofs::SchemaTurns::implicit_unadopting))]
fn is_implicit(collection: &Collection, headings: &[u32], adopt: bool) -> bool
    requires { Stored collection.now.words.now headings.now }
    ensures { result
        ≡ is_implicit collection.now.text.now collection.now.words.now adopt headings.now }
{
    if adopt {
        return !any_root(collection, headings);
    }
    has_implicit_root_operation(collection, headings, false)
}

impl<'a> Schema<'a> {
    // Extends a list of the schema by the schema extensions, in filing order.
    // Stays: the types' one walks cards that are all taken, and this one asks each for its kind; each is one loop with one call.
    #[tactic(auto, using(component::proofs::Loops::extends_first, component::proofs::Loops::extends_last))]
    fn extend_by_extensions(&self, start: usize, kind: u32, rows: &mut Rows)
        requires begun { start ≤ rows.old.used }
        requires room { HasRoom rows.old
            (extend_by_schema_extensions self.now.collection.text.now self.now.collection.words.now kind
            self.now.headings.now start) }
        ensures { Becomes rows.old rows.new
            (extend_by_schema_extensions self.now.collection.text.now self.now.collection.words.now kind
            self.now.headings.now start) }
    {
        for card in self.headings {
            if self.collection.kind(*card) != kinds::SCHEMA_EXTENSION {
                continue;
            }
            rows.extend_ast(&self.collection, start, kind, *card, Some(*card));
        }
    }

    // Extends the list of a root's kind by the default root, if an object type has its name; a default root has no card and no origin.
    #[tactic(auto, using(component::proofs::Turns::extended_nothing, crate::proofs::SchemaTurns::no_default, crate::proofs::SchemaTurns::default_unset, crate::proofs::SchemaTurns::default_set))]
    fn add_implicit_root(&self, start: usize, kind: u32, rows: &mut Rows)
        requires { HasRoom rows.old
            (extend_by_default self.now.collection.text.now self.now.collection.words.now self.now.adopt
            self.now.headings.now kind start) }
        ensures { Becomes rows.old rows.new
            (extend_by_default self.now.collection.text.now self.now.collection.words.now self.now.adopt
            self.now.headings.now kind start) }
    {
        if !kinds::is_root(kind) {
            return;
        }
        if !is_default_object(&self.collection, self.headings, self.adopt, kind) {
            return;
        }
        let row = Row {
            what: kind,
            card: None,
            origin: None,
        };
        rows.extend_sticky(&self.collection, start, row);
    }

    // Pushes one list of the schema. With a definition: its parts, then those of the extensions. Without one, adopting: the extensions', then the
    // default root if no root is set; not adopting: the default root, then the extensions', if any default root is set, and else nothing.
    fn push_list(&self, kind: u32, rows: &mut Rows)
        requires { HasRoom rows.old
            (pushed
            (schema_list_at self.now.collection.text.now self.now.collection.words.now self.now.adopt
            self.now.headings.now (unwrap_or self.now.card absent) self.now.implicit kind)) }
        ensures { Becomes rows.old rows.new
            (pushed
            (schema_list_at self.now.collection.text.now self.now.collection.words.now self.now.adopt
            self.now.headings.now (unwrap_or self.now.card absent) self.now.implicit kind)) }
    {
        let start = rows.used;
        if let Some(card) = self.card {
            rows.extend_ast(&self.collection, start, kind, card, None);
            self.extend_by_extensions(start, kind, rows);
            return;
        }
        if self.adopt {
            self.extend_by_extensions(start, kind, rows);
            if self.implicit {
                self.add_implicit_root(start, kind, rows);
                return;
            }
            return;
        }
        if self.implicit {
            self.add_implicit_root(start, kind, rows);
            self.extend_by_extensions(start, kind, rows);
        }
    }

    // Pushes the lists of the schema.
    #[tactic(auto, using(component::proofs::Loops::pushes_first, component::proofs::Loops::pushes_last), unfolding(definition::specs::Catalogue::under_schema))]
    fn push_lists(&self, rows: &mut Rows)
        requires { HasRoom rows.old
            (pushed
            (schema_lists_at self.now.collection.text.now self.now.collection.words.now self.now.adopt
            self.now.headings.now (unwrap_or self.now.card absent) self.now.implicit)) }
        ensures { Becomes rows.old rows.new
            (pushed
            (schema_lists_at self.now.collection.text.now self.now.collection.words.now self.now.adopt
            self.now.headings.now (unwrap_or self.now.card absent) self.now.implicit)) }
    {
        for kind in LISTS {
            self.push_list(kind, rows);
        }
    }
}

// Pushes the schema: its row and its lists.
pub fn push_schema(collection: &Collection, headings: &[u32], adopt: bool, rows: &mut Rows)
    requires stored { Stored collection.now.words.now headings.now }
    requires room { HasRoom rows.old
        (pushed
        (schema_rows_at collection.now.text.now collection.now.words.now adopt headings.now)) }
    ensures { Becomes rows.old rows.new
        (pushed
        (schema_rows_at collection.now.text.now collection.now.words.now adopt headings.now)) }
{
    let schema = Schema {
        collection: *collection,
        headings,
        card: schema_definition(collection, headings),
        adopt,
        implicit: is_implicit(collection, headings, adopt),
    };
    rows.push(Row {
        what: kinds::SCHEMA_DEFINITION,
        card: schema.card,
        origin: None,
    });
    schema.push_lists(rows);
}
