// schema/mod.rs: the root operations of lent rows, and meta fields, of which the query root has two.
ghost use Rattle.std.specs.Prelude.{◌≡◌, true, false};
ghost use Rattle.definition.specs.Answers.{root_kind};
ghost use Rattle.definition.specs.Cards.{is_root};
ghost use Rattle.definition.specs.Lookups.{root_card, is_query_root};
ghost use Rattle.definition.specs.Store.{sound, too_short};
ghost use Rattle.schema_rows.specs.Rows.{row_of, cards_of, rows_of};
ghost use Rattle.schema.specs.InStore.{root_span_in, root_name, IsSpan, RowsPass, meta_field_in};
ghost use Rattle.schema.specs.MetaFields.{is_typename};

use ast::kinds;
use definition::{ABSENT, FieldFound, OperationType};
use schema_rows::{Row, Schema};

// Stays: a method of OperationType would stand in the crate definition, and the kinds stand above it in ast.
fn root_kind(op: OperationType) -> u32
    ensures { result ≡ root_kind op }
{
    match op {
        OperationType::Query => kinds::QUERY,
        OperationType::Mutation => kinds::MUTATION,
        OperationType::Subscription => kinds::SUBSCRIPTION,
    }
}

// The card that has a root's name: the root's own, or for a default root its object row's.
// Stays: `-` is a card that is not stored, which has the empty name, and that is all both callers ask for; with None each would say so again.
fn root_card(schema: Schema, root: Row) -> u32
    requires { is_root root.what ≡ true }
    ensures { result ≡ root_card (cards_of schema.entry) (rows_of schema.entry) (row_of root) }
{
    if root.card != ABSENT {
        return root.card;
    }
    let Some(t) = schema.find_default_root(root.what) else {
        return ABSENT;
    };
    schema.row(t).card
}

// The name is handed back as a part of the store's text: the bytes where the name stands, and no others that equal them.
pub fn root_operation<'text>(schema: Schema<'text, '_>, op: OperationType) -> &'text [u8]
    requires { (sound schema.text.now schema.words.now ≡ true)
        × (too_short schema.text.now schema.words.now ≡ false) }
    ensures { (result.now ≡ root_name schema.entry.text.now schema.entry.words.now schema.entry.rows.now op)
        × (RowsPass schema.entry.text.now schema.entry.words.now schema.entry.rows.now
        → IsSpan schema.entry.text result
        (root_span_in schema.entry.text.now schema.entry.words.now schema.entry.rows.now op)) }
{
    let Some(i) = schema.find_row(root_kind(op)) else {
        return &schema.text[0..0];
    };
    let card = root_card(schema, schema.row(i));
    store_reader::reader::read_name(schema.text, schema.words, card as usize)
}

fn is_query_root(schema: Schema, name: &[u8]) -> bool
    ensures { result ≡ is_query_root (cards_of schema.entry) (rows_of schema.entry) name.now }
{
    let Some(i) = schema.find_row(kinds::QUERY) else {
        return false;
    };
    schema.is_named(root_card(schema, schema.row(i)), name)
}

// Objects, interfaces and unions have `__typename`.
#[tactic(auto, unfolding(crate::specs::MetaFields::is_typename, definition::specs::Names::bytes))]
fn is_typename(what: u32, field: &[u8]) -> bool
    ensures { result ≡ is_typename what field.now }
{
    matches!(
        what,
        kinds::OBJECT_TYPE_DEFINITION..=kinds::UNION_TYPE_DEFINITION
    ) && name::same(field, b"__typename")
}

// A meta field of a type of the kind and the name.
#[tactic(auto, unfolding(definition::specs::Lookups::meta_field, crate::specs::MetaFields::is_typename, definition::specs::Names::bytes))]
pub fn meta_field(schema: Schema, what: u32, type_name: &[u8], field: &[u8]) -> Option<FieldFound>
    ensures { result
        ≡ meta_field_in (cards_of schema.entry) (rows_of schema.entry) what type_name.now
        field.now }
{
    if is_typename(what, field) {
        return Some(FieldFound::Typename);
    }
    if !is_query_root(schema, type_name) {
        return None;
    }
    if name::same(field, b"__schema") {
        return Some(FieldFound::Schema);
    }
    if name::same(field, b"__type") {
        return Some(FieldFound::Type);
    }
    None
}
