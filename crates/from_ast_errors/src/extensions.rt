// The errors of reading extensions: those before their definition come with it, the others where they stand.
ghost use Rattle.std.specs.Prelude.{◌≡◌, ◌≤◌, ◌<◌, length};
ghost use Rattle.definition.specs.Lists.{flat_map};
ghost use Rattle.store_reader.specs.Stored.{card_kind};
ghost use Rattle.from_ast_index.specs.Index.{own_extensions};
ghost use Rattle.from_ast_collisions.specs.Pushing.{Capacity, push_all};
ghost use Rattle.from_ast_collisions.specs.ErrorsByCards.{schema_extension_errors_at, early_errors, type_extension_errors_at};
ghost use Rattle.from_ast_collisions.specs.Views.{cards, Ascending};
ghost use Rattle.from_ast_errors.specs.Views.{owned_view};

use crate::finished::Finished;
use ast::kinds;
use definition::build_error::BuildError;
use from_ast_collisions::merging::merge_errors;
use from_ast_collisions::owner::Owner;
use from_ast_collisions::pushing::Errors;
use from_ast_index::{Collection, card_in};

// All type extensions, and for each stored card where those of its type begin and end among them.
#[derive(Clone, Copy)]
pub struct TypeExtensions<'index> {
    pub all: &'index [u32],
    pub starts: &'index [u32],
    pub ends: &'index [u32],
}

impl<'index> TypeExtensions<'index> {
    // The part of all in which those of a type stand.
    #[tactic(auto, using(from_ast_index::proofs::Spans::part_clipped), unfolding(from_ast_index::specs::Index::own_extensions))]
    pub fn of_type(&self, card: u32) -> &'index [u32]
        requires starts { card < length self.now.starts.now }
        requires ends { card < length self.now.ends.now }
        ensures { result.now ≡ own_extensions self.now.all.now self.now.starts.now self.now.ends.now card }
    {
        let end = (self.ends[card as usize] as usize).min(self.all.len());
        let start = (self.starts[card as usize] as usize).min(end);
        &self.all[start..end]
    }
}

// A schema extension before any definition waits. The row may be that of any card.
#[tactic(auto, using(from_ast_collisions::proofs::Push::same_pushed, from_ast_collisions::proofs::Push::same_capacity, from_ast_collisions::proofs::Push::none_pushed, from_ast_collisions::proofs::Branches::extension_waits, from_ast_collisions::proofs::Branches::schema_extended))]
pub fn schema_extension_errors(collection: &Collection, schema: &Owner, h: u32, errors: &mut Errors)
    requires is_schema { schema.now.kind ≡ 4 }
    requires capacity { Capacity errors.old
        (schema_extension_errors_at (cards collection.now) schema.now.rows.now schema.now.card h) }
    ensures { errors.new ≡ push_all errors.old
        (schema_extension_errors_at (cards collection.now) schema.now.rows.now schema.now.card h) }
{
    let Some(definition) = card_in(schema.card) else {
        return;
    };
    if definition < h {
        merge_errors(collection, schema, h, errors);
    }
}

// The errors of an extension before the definition that the owner is of; one of another kind is dropped, as the Rust does.
#[tactic(auto, using(from_ast_collisions::proofs::Push::same_pushed, from_ast_collisions::proofs::Push::same_capacity, from_ast_collisions::proofs::Push::none_pushed, from_ast_collisions::proofs::Branches::early_other_kind, from_ast_collisions::proofs::Branches::early_other_owner, from_ast_collisions::proofs::Branches::early_own))]
fn early_extension_errors(
    collection: &Collection,
    owners: &[u32],
    owner: &Owner,
    card: u32,
    errors: &mut Errors,
)
    requires own_kind { owner.now.kind ≡ card_kind collection.now.words.now owner.now.card }
    requires before { card < owner.now.card }
    requires capacity { Capacity errors.old
        (early_errors (owned_view collection.now owners.now) owner.now.rows.now owner.now.card card) }
    ensures { errors.new ≡ push_all errors.old
        (early_errors (owned_view collection.now owners.now) owner.now.rows.now owner.now.card card) }
{
    // Stays: words are compared, for the owner's card may be `-` by the contract, and an Option of the word would then say otherwise.
    if kinds::is_extension_of(collection.kind(card), owner.kind)
        && store_reader::word(owners, card as usize) == owner.card
    {
        merge_errors(collection, owner, card, errors);
    }
}

// Those of all extensions before it: they come first.
#[tactic(auto, using(from_ast_collisions::proofs::Push::turn_first, from_ast_collisions::proofs::Push::turn_fits, from_ast_collisions::proofs::Push::turn_last, from_ast_collisions::proofs::Push::turn_next, from_ast_collisions::proofs::Push::turn_left, from_ast_collisions::proofs::Branches::none_early))]
pub fn early_errors(
    collection: &Collection,
    owners: &[u32],
    owner: &Owner,
    extensions: &[u32],
    errors: &mut Errors,
)
    requires own_kind { owner.now.kind ≡ card_kind collection.now.words.now owner.now.card }
    requires ascending { Ascending extensions.now }
    requires capacity { Capacity errors.old
        (flat_map (early_errors (owned_view collection.now owners.now) owner.now.rows.now owner.now.card) extensions.now) }
    ensures { errors.new ≡ push_all errors.old
        (flat_map (early_errors (owned_view collection.now owners.now) owner.now.rows.now owner.now.card) extensions.now) }
{
    for card in extensions {
        if owner.card <= *card {
            return;
        }
        early_extension_errors(collection, owners, owner, *card, errors);
    }
}

// A type extension before its definition waits; after one of another kind it is an error.
#[tactic(auto, using(from_ast_collisions::proofs::Branches::late_waits, from_ast_collisions::proofs::Push::none_pushed, from_ast_collisions::proofs::Push::same_pushed, from_ast_collisions::proofs::Push::same_capacity, from_ast_collisions::proofs::Branches::late_mismatch, from_ast_collisions::proofs::Branches::late_merged, from_ast_collisions::proofs::Branches::owner_merged))]
pub fn type_extension_errors(finished: &Finished, h: u32, errors: &mut Errors)
    requires heading { card_kind finished.now.collection.words.now h ≤ 17 }
    requires capacity { Capacity errors.old
        (type_extension_errors_at (owned_view finished.now.collection finished.now.owners.now) finished.now.rows.rows.now h) }
    ensures { errors.new ≡ push_all errors.old
        (type_extension_errors_at (owned_view finished.now.collection finished.now.owners.now) finished.now.rows.rows.now h) }
{
    let collection = &finished.collection;
    let Some(definition) = finished.owner(h) else {
        return;
    };
    if h <= definition {
        return;
    }
    let kind = collection.kind(definition);
    if kinds::is_extension_of(collection.kind(h), kind) {
        merge_errors(
            collection,
            &finished.rows.owner(kind, definition),
            h,
            errors,
        );
    } else {
        errors.push(BuildError::TypeExtensionKindMismatch, h, Some(definition));
    }
}
