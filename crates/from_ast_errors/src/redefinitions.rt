// The errors of reading a definition whose name another definition has.
ghost use Rattle.std.specs.Prelude.{◌≡◌, ◌<◌, []};
ghost use Rattle.definition.specs.Store.{cards_used_of};
ghost use Rattle.from_ast_collisions.specs.Pushing.{Capacity, push_all};
ghost use Rattle.from_ast_collisions.specs.ErrorsByCards.{collides, directive_errors_at, redefinition_errors_at};
ghost use Rattle.from_ast_collisions.specs.Views.{cards, view_of, Held};

use ast::kinds;
use definition::build_error::BuildError;
use from_ast_collisions::pushing::Errors;
use from_ast_index::Collection;
use store_reader::documents::{built_in_at, ignored_at};

// Whether the card is a directive definition that is not built-in and has the name of h.
#[tactic(auto, using(from_ast_collisions::proofs::Tests::not_true, from_ast_collisions::proofs::Tests::not_false, from_ast_collisions::proofs::Branches::collides_other, from_ast_collisions::proofs::Branches::collides_built_in, from_ast_collisions::proofs::Branches::collides_named), unfolding(from_ast_index::specs::Index::same_cards))]
fn collides(collection: &Collection, h: u32, card: u32) -> bool
    requires h_stored { h < cards_used_of collection.now.words.now }
    requires card_stored { card < cards_used_of collection.now.words.now }
    ensures { result ≡ collides (cards collection.now) h card }
{
    collection.kind(card) == kinds::DIRECTIVE_DEFINITION
        && !built_in_at(collection.words, card as usize)
        && collection.same_name(h, card)
}

// A directive definition replaces a built-in one; after any other it is a collision.
#[tactic(auto, using(from_ast_collisions::proofs::Push::same_pushed, from_ast_collisions::proofs::Push::same_capacity, from_ast_collisions::proofs::Push::none_pushed, from_ast_collisions::proofs::Branches::directive_found, from_ast_collisions::proofs::Branches::directive_none, from_ast_collisions::proofs::Branches::first_here, from_ast_collisions::proofs::Branches::first_later, from_ast_collisions::proofs::Branches::first_past))]
pub fn directive_errors(collection: &Collection, before: &[u32], h: u32, errors: &mut Errors)
    requires stored { h < cards_used_of collection.now.words.now }
    requires held { Held collection.now.words.now before.now }
    requires capacity { Capacity errors.old (directive_errors_at (cards collection.now) before.now h) }
    ensures { errors.new ≡ push_all errors.old (directive_errors_at (cards collection.now) before.now h) }
{
    for card in before {
        if collides(collection, h, *card) {
            errors.push(BuildError::DirectiveDefinitionCollision, h, Some(*card));
            return;
        }
    }
}

// A second type definition: ignored after a built-in one where the switch was on when it was filed. Names are not read, so the text is not lent.
#[tactic(auto, using(from_ast_collisions::proofs::Push::same_pushed, from_ast_collisions::proofs::Push::same_capacity, from_ast_collisions::proofs::Push::none_pushed, from_ast_collisions::proofs::Branches::second_own, from_ast_collisions::proofs::Branches::second_ignored, from_ast_collisions::proofs::Branches::second_scalar, from_ast_collisions::proofs::Branches::second_other))]
pub fn redefinition_errors(words: &[u32], owners: &[u32], h: u32, errors: &mut Errors)
    requires { Capacity errors.old (redefinition_errors_at (view_of [] words.now owners.now) h) }
    ensures { errors.new ≡ push_all errors.old (redefinition_errors_at (view_of [] words.now owners.now) h) }
{
    let owner = store_reader::word(owners, h as usize);
    if !built_in_at(words, owner as usize) {
        errors.push(BuildError::TypeDefinitionCollision, h, Some(owner));
    } else if ignored_at(words, h as usize) {
        return;
    } else if store_reader::card_kind(words, h as usize) == kinds::SCALAR_TYPE_DEFINITION {
        errors.push(BuildError::BuiltInScalarTypeRedefinition, h, None);
    } else {
        errors.push(BuildError::TypeDefinitionCollision, h, Some(owner));
    }
}
