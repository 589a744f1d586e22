// The errors of orphans, the type extensions without a definition, name by name: those of adopting them, or that they were not met.
ghost use Rattle.std.specs.Prelude.{◌≡◌, ◌-◌, ◌<◌};
ghost use Rattle.definition.specs.Lists.{flat_map};
ghost use Rattle.definition.specs.Store.{cards_used_of};
ghost use Rattle.store_reader.specs.Stored.{card_kind};
ghost use Rattle.from_ast_collisions.specs.Pushing.{Capacity, push_all};
ghost use Rattle.from_ast_collisions.specs.ErrorsByCards.{is_orphan_of, adoption_errors_at, unadopted_errors_at, orphan_errors_at};
ghost use Rattle.from_ast_collisions.specs.Views.{Held, HeldExtension, HeldExtensions};
ghost use Rattle.from_ast_errors.specs.Views.{owned_view};

use crate::finished::Finished;
use ast::kinds;
use definition::build_error::BuildError;
use from_ast_collisions::merging::merge_errors;
use from_ast_collisions::owner::Owner;
use from_ast_collisions::pushing::Errors;

// Whether the card is a type extension without a definition that has the name of g.
#[tactic(auto, using(from_ast_index::proofs::Cards::word_absent, from_ast_index::proofs::Cards::word_present, from_ast_collisions::proofs::Branches::orphan_owned, from_ast_collisions::proofs::Branches::orphan_named), unfolding(from_ast_index::specs::Index::same_cards))]
fn is_orphan_of(finished: &Finished, g: u32, card: u32) -> bool
    requires g_stored { g < cards_used_of finished.now.collection.words.now }
    requires card_stored { card < cards_used_of finished.now.collection.words.now }
    ensures { result ≡ is_orphan_of (owned_view finished.now.collection finished.now.owners.now) g card }
{
    finished.owner(card).is_none() && finished.collection.same_name(g, card)
}

// Adopting an extension of the name that the owner's card has, the first of them: one of another kind is an error.
#[tactic(auto, using(from_ast_collisions::proofs::Push::same_pushed, from_ast_collisions::proofs::Push::same_capacity, from_ast_collisions::proofs::Push::none_pushed, from_ast_collisions::proofs::Branches::adopt_other, from_ast_collisions::proofs::Branches::adopt_mismatch, from_ast_collisions::proofs::Branches::adopt_merged))]
fn adopt_extension(finished: &Finished, owner: &Owner, card: u32, errors: &mut Errors)
    requires defined { owner.now.kind ≡ card_kind finished.now.collection.words.now owner.now.card - 7 }
    requires owner_stored { owner.now.card < cards_used_of finished.now.collection.words.now }
    requires card_stored { card < cards_used_of finished.now.collection.words.now }
    requires capacity { Capacity errors.old
        (adoption_errors_at (owned_view finished.now.collection finished.now.owners.now) owner.now.rows.now owner.now.card card) }
    ensures { errors.new ≡ push_all errors.old
        (adoption_errors_at (owned_view finished.now.collection finished.now.owners.now) owner.now.rows.now owner.now.card card) }
{
    let collection = &finished.collection;
    if !is_orphan_of(finished, owner.card, card) {
        return;
    }
    if collection.kind(card) == collection.kind(owner.card) {
        merge_errors(collection, owner, card, errors);
    } else {
        errors.push(
            BuildError::TypeExtensionKindMismatch,
            card,
            Some(owner.card),
        );
    }
}

// Adopting all extensions of the name of g.
#[tactic(auto, using(from_ast_collisions::proofs::Push::turn_first, from_ast_collisions::proofs::Push::turn_fits, from_ast_collisions::proofs::Push::turn_last, from_ast_collisions::proofs::Push::turn_next, from_ast_collisions::proofs::Branches::defined_kind, from_ast_collisions::proofs::Branches::held_at))]
fn adoption_errors(finished: &Finished, extensions: &[u32], g: u32, errors: &mut Errors)
    requires g_held { HeldExtension finished.now.collection.words.now g }
    requires held { Held finished.now.collection.words.now extensions.now }
    requires capacity { Capacity errors.old
        (flat_map (adoption_errors_at (owned_view finished.now.collection finished.now.owners.now) finished.now.rows.rows.now g) extensions.now) }
    ensures { errors.new ≡ push_all errors.old
        (flat_map (adoption_errors_at (owned_view finished.now.collection finished.now.owners.now) finished.now.rows.rows.now g) extensions.now) }
{
    let owner = finished
        .rows
        .owner(kinds::definition_of(finished.collection.kind(g)), g);
    for card in extensions {
        adopt_extension(finished, &owner, *card, errors);
    }
}

// The extensions of the name of g, which no definition met.
#[tactic(auto, using(from_ast_collisions::proofs::Push::turn_first, from_ast_collisions::proofs::Push::turn_fits, from_ast_collisions::proofs::Push::turn_last, from_ast_collisions::proofs::Branches::held_at))]
fn unadopted_errors(finished: &Finished, extensions: &[u32], g: u32, errors: &mut Errors)
    requires stored { g < cards_used_of finished.now.collection.words.now }
    requires held { Held finished.now.collection.words.now extensions.now }
    requires capacity { Capacity errors.old
        (flat_map (unadopted_errors_at (owned_view finished.now.collection finished.now.owners.now) g) extensions.now) }
    ensures { errors.new ≡ push_all errors.old
        (flat_map (unadopted_errors_at (owned_view finished.now.collection finished.now.owners.now) g) extensions.now) }
{
    for card in extensions {
        unadopted_extension(finished, g, *card, errors);
    }
}

// One of them, if the card is.
#[tactic(auto, using(from_ast_collisions::proofs::Push::same_pushed, from_ast_collisions::proofs::Push::same_capacity, from_ast_collisions::proofs::Push::none_pushed, from_ast_collisions::proofs::Branches::unadopted_other, from_ast_collisions::proofs::Branches::unadopted_same))]
fn unadopted_extension(finished: &Finished, g: u32, card: u32, errors: &mut Errors)
    requires g_stored { g < cards_used_of finished.now.collection.words.now }
    requires card_stored { card < cards_used_of finished.now.collection.words.now }
    requires capacity { Capacity errors.old
        (unadopted_errors_at (owned_view finished.now.collection finished.now.owners.now) g card) }
    ensures { errors.new ≡ push_all errors.old
        (unadopted_errors_at (owned_view finished.now.collection finished.now.owners.now) g card) }
{
    if is_orphan_of(finished, g, card) {
        errors.push(BuildError::OrphanTypeExtension, card, None);
    }
}

// The orphans of one name, g being the first.
#[tactic(auto, using(from_ast_collisions::proofs::Push::same_pushed, from_ast_collisions::proofs::Push::same_capacity, from_ast_collisions::proofs::Branches::orphans_adopted, from_ast_collisions::proofs::Branches::orphans_unadopted))]
fn orphan_errors(finished: &Finished, extensions: &[u32], adopt: bool, g: u32, errors: &mut Errors)
    requires g_held { HeldExtension finished.now.collection.words.now g }
    requires held { Held finished.now.collection.words.now extensions.now }
    requires capacity { Capacity errors.old
        (orphan_errors_at adopt (owned_view finished.now.collection finished.now.owners.now) finished.now.rows.rows.now extensions.now g) }
    ensures { errors.new ≡ push_all errors.old
        (orphan_errors_at adopt (owned_view finished.now.collection finished.now.owners.now) finished.now.rows.rows.now extensions.now g) }
{
    if adopt {
        adoption_errors(finished, extensions, g, errors);
    } else {
        unadopted_errors(finished, extensions, g, errors);
    }
}

// The orphans of all names, in the order of the first ones.
#[tactic(auto, using(from_ast_collisions::proofs::Push::turn_first, from_ast_collisions::proofs::Push::turn_fits, from_ast_collisions::proofs::Push::turn_last, from_ast_collisions::proofs::Push::turn_next, from_ast_collisions::proofs::Branches::held_at))]
pub fn all_orphan_errors(
    finished: &Finished,
    orphans: &[u32],
    extensions: &[u32],
    adopt: bool,
    errors: &mut Errors,
)
    requires held { Held finished.now.collection.words.now extensions.now }
    requires orphans_held { HeldExtensions finished.now.collection.words.now orphans.now }
    requires capacity { Capacity errors.old
        (flat_map
        (orphan_errors_at adopt (owned_view finished.now.collection finished.now.owners.now) finished.now.rows.rows.now extensions.now)
        orphans.now) }
    ensures { errors.new ≡ push_all errors.old
        (flat_map
        (orphan_errors_at adopt (owned_view finished.now.collection finished.now.owners.now) finished.now.rows.rows.now extensions.now)
        orphans.now) }
{
    for g in orphans {
        orphan_errors(finished, extensions, adopt, *g, errors);
    }
}
