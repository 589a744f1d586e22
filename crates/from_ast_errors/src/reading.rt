// The errors of reading documents: what each heading gives after those before it.
ghost use Rattle.std.specs.Prelude.{◌≡◌, ◌≤◌, ◌<◌, []};
ghost use Rattle.definition.specs.Store.{cards_used_of};
ghost use Rattle.store_reader.specs.Stored.{card_kind};
ghost use Rattle.from_ast_index.specs.Index.{Spanned};
ghost use Rattle.from_ast_collisions.specs.Pushing.{Capacity, push_all};
ghost use Rattle.from_ast_collisions.specs.ErrorsByCards.{schema_errors_at, type_errors_at, errors_at_card, reading_errors_at};
ghost use Rattle.from_ast_collisions.specs.Views.{cards, Ascending, Held, HeldHeadings};
ghost use Rattle.from_ast_errors.specs.Views.{owned_view};
ghost use Rattle.from_ast_errors.specs.Written.{schema_card};

use crate::extensions::{
    TypeExtensions, early_errors, schema_extension_errors, type_extension_errors,
};
use crate::finished::Finished;
use crate::redefinitions::{directive_errors, redefinition_errors};
use ast::kinds;
use definition::build_error::BuildError;
use from_ast_collisions::merging::{merge_errors, merge_schema_extensions};
use from_ast_collisions::owner::Owner;
use from_ast_collisions::pushing::Errors;
use from_ast_index::{Collection, card_in};

// A first schema definition is merged with the extensions before it; a second one is an error.
#[tactic(auto, using(from_ast_collisions::proofs::Push::same_pushed, from_ast_collisions::proofs::Push::same_capacity, from_ast_collisions::proofs::Push::first_capacity, from_ast_collisions::proofs::Push::second_capacity, from_ast_collisions::proofs::Push::both_pushed, from_ast_collisions::proofs::Branches::schema_second, from_ast_collisions::proofs::Branches::schema_first_merged))]
fn schema_errors(
    collection: &Collection,
    schema: &Owner,
    before: &[u32],
    h: u32,
    errors: &mut Errors,
)
    requires is_schema { schema.now.kind ≡ 4 }
    requires capacity { Capacity errors.old
        (schema_errors_at (cards collection.now) schema.now.rows.now schema.now.card before.now h) }
    ensures { errors.new ≡ push_all errors.old
        (schema_errors_at (cards collection.now) schema.now.rows.now schema.now.card before.now h) }
{
    match card_in(schema.card) {
        Some(first) if first < h => {
            errors.push(BuildError::SchemaDefinitionCollision, h, Some(first));
        }
        _ => {
            merge_errors(collection, schema, h, errors);
            merge_schema_extensions(collection, before, schema, errors);
        }
    }
}

// A first type definition is merged with the extensions of its kind before it; they stand in its part of all extensions.
#[tactic(auto, using(crate::proofs::Definitions::defined_twice, crate::proofs::Definitions::defined_once, from_ast_collisions::proofs::Spans::told_ascends, from_ast_collisions::proofs::Push::same_pushed, from_ast_collisions::proofs::Push::same_capacity, from_ast_collisions::proofs::Push::first_capacity, from_ast_collisions::proofs::Push::second_capacity, from_ast_collisions::proofs::Push::both_pushed))]
fn type_errors(finished: &Finished, extensions: &TypeExtensions, h: u32, errors: &mut Errors)
    requires stored { h < cards_used_of finished.now.collection.words.now }
    requires heading { card_kind finished.now.collection.words.now h < 20 }
    requires ascending { Ascending extensions.now.all.now }
    requires spanned { Spanned finished.now.collection.words.now finished.now.owners.now extensions.now.all.now extensions.now.starts.now
        extensions.now.ends.now }
    requires capacity { Capacity errors.old
        (type_errors_at (owned_view finished.now.collection finished.now.owners.now) finished.now.rows.rows.now extensions.now.all.now h) }
    ensures { errors.new ≡ push_all errors.old
        (type_errors_at (owned_view finished.now.collection finished.now.owners.now) finished.now.rows.rows.now extensions.now.all.now h) }
{
    let collection = &finished.collection;
    match finished.owner(h) {
        Some(first) if first < h => {
            redefinition_errors(collection.words, finished.owners, h, errors)
        }
        _ => {
            let owner = finished.rows.owner(collection.kind(h), h);
            merge_errors(collection, &owner, h, errors);
            early_errors(
                collection,
                finished.owners,
                &owner,
                extensions.of_type(h),
                errors,
            );
        }
    }
}

// What reading the heading h gives after the headings before it. An operation or a fragment is an error.
#[tactic(auto, using(from_ast_collisions::proofs::Push::same_pushed, from_ast_collisions::proofs::Push::same_capacity, from_ast_collisions::proofs::Branches::at_executable, from_ast_collisions::proofs::Branches::at_directive, from_ast_collisions::proofs::Branches::at_schema, from_ast_collisions::proofs::Branches::at_type, from_ast_collisions::proofs::Branches::at_schema_extension, from_ast_collisions::proofs::Branches::at_type_extension))]
fn errors_at(
    finished: &Finished,
    extensions: &TypeExtensions,
    before: &[u32],
    h: u32,
    errors: &mut Errors,
)
    requires stored { h < cards_used_of finished.now.collection.words.now }
    requires heading { card_kind finished.now.collection.words.now h ≤ 17 }
    requires held { Held finished.now.collection.words.now before.now }
    requires ascending { Ascending extensions.now.all.now }
    requires spanned { Spanned finished.now.collection.words.now finished.now.owners.now extensions.now.all.now extensions.now.starts.now
        extensions.now.ends.now }
    requires capacity { Capacity errors.old
        (errors_at_card (owned_view finished.now.collection finished.now.owners.now) finished.now.rows.rows.now
        (schema_card finished.now.rows.rows.now) extensions.now.all.now before.now h) }
    ensures { errors.new ≡ push_all errors.old
        (errors_at_card (owned_view finished.now.collection finished.now.owners.now) finished.now.rows.rows.now
        (schema_card finished.now.rows.rows.now) extensions.now.all.now before.now h) }
{
    let collection = &finished.collection;
    match collection.kind(h) {
        ..=kinds::FRAGMENT_DEFINITION => errors.push(BuildError::ExecutableDefinition, h, None),
        kinds::DIRECTIVE_DEFINITION => directive_errors(collection, before, h, errors),
        kinds::SCHEMA_DEFINITION => {
            schema_errors(collection, &finished.schema(), before, h, errors)
        }
        ..=kinds::INPUT_OBJECT_TYPE_DEFINITION => type_errors(finished, extensions, h, errors),
        kinds::SCHEMA_EXTENSION => {
            schema_extension_errors(collection, &finished.schema(), h, errors)
        }
        _ => type_extension_errors(finished, h, errors),
    }
}

// The errors of all headings in order.
#[tactic(auto, using(definition::proofs::All::all_to, from_ast_collisions::proofs::Push::going_start, from_ast_collisions::proofs::Push::next_capacity, from_ast_collisions::proofs::Push::next_on, from_ast_collisions::proofs::Push::going_end, from_ast_collisions::proofs::Branches::reading_next, from_ast_collisions::proofs::Branches::reading_done, from_ast_collisions::proofs::Branches::held_at, from_ast_collisions::proofs::Branches::held_before))]
pub fn reading_errors(
    finished: &Finished,
    extensions: &TypeExtensions,
    headings: &[u32],
    errors: &mut Errors,
)
    requires held { HeldHeadings finished.now.collection.words.now headings.now }
    requires ascending { Ascending extensions.now.all.now }
    requires spanned { Spanned finished.now.collection.words.now finished.now.owners.now extensions.now.all.now extensions.now.starts.now
        extensions.now.ends.now }
    requires capacity { Capacity errors.old
        (reading_errors_at (owned_view finished.now.collection finished.now.owners.now) finished.now.rows.rows.now
        (schema_card finished.now.rows.rows.now) extensions.now.all.now [] headings.now) }
    ensures { errors.new ≡ push_all errors.old
        (reading_errors_at (owned_view finished.now.collection finished.now.owners.now) finished.now.rows.rows.now
        (schema_card finished.now.rows.rows.now) extensions.now.all.now [] headings.now) }
{
    for (k, h) in headings.iter().enumerate() {
        errors_at(finished, extensions, &headings[..k], *h, errors);
    }
}
