// SchemaBuilder::built_in: what the Rust asserts of its own built-in document is here the refusal 6 of a lent document 0, of any length.
#![tactic(auto)]

ghost use Rattle.std.specs.Prelude.{◌≡◌, [], false};
ghost use Rattle.std.proofs.Math.Option.{none};
ghost use Rattle.definition.specs.Cards.{cards_of};
ghost use Rattle.definition.specs.Refusals.{is_barred, barred_from, document, zero_fault};
ghost use Rattle.ast_check.specs.Checks.{check_option};
ghost use Rattle.store_built_in.specs.Alone.{fails_from, six_at, found_at, under_after};

use ast::kinds;
use ast_check::Document;
use definition::layout::CARD_WORDS;
use definition::refusal::{Refusal, Refused};

pub mod card_errors;

// The kinds that document 0 may not hold: only directives and types are built in.
#[tactic(auto, unfolding(definition::specs::Refusals::is_barred))]
fn is_barred(kind: u32) -> bool
    ensures { result ≡ is_barred kind }
{
    let barred = matches!(
        kind,
        kinds::OPERATION_DEFINITION | kinds::FRAGMENT_DEFINITION | kinds::SCHEMA_DEFINITION
    );
    barred || kinds::is_extension(kind)
}

// The first heading of a barred kind.
fn first_barred(cards: &[u32]) -> Option<usize>
    ensures { six_at (found_at result) ≡ barred_from 0 (cards_of cards.now) }
{
    (0..cards.len() / CARD_WORDS).find(|i| is_barred(ast::kind_at(cards, *i)))
}

// What the card after one of that kind stands under, `next` being its number.
#[tactic(auto, unfolding(crate::specs::Alone::under_after))]
fn under_after(under: Option<usize>, kind: u32, next: usize) -> Option<usize>
    ensures { result ≡ under_after under kind next }
{
    if kinds::is_part(kind) {
        under
    } else if kinds::is_type(kind) {
        Some(next)
    } else {
        None
    }
}

// The first card that gives an error where no kind is barred.
#[tactic(auto, using(crate::proofs::Searches::within_next, crate::proofs::Searches::errors_from, crate::proofs::Searches::errors_all, crate::proofs::Searches::errors_end, crate::proofs::Searches::errors_hit, crate::proofs::Searches::errors_next))]
fn first_error(document: Document) -> Option<usize>
    ensures { found_at result
        ≡ fails_from document.entry.text.now [] none 0 (cards_of document.entry.cards.now) }
{
    let mut under = None;
    for i in 0..document.cards.len() / CARD_WORDS {
        let card = ast::card_at(document.cards, i);
        if crate::card_errors::card_fails(document, under, i, card) {
            return Some(i);
        }
        under = under_after(under, card.kind, i + 1);
    }
    None
}

// The refusal of a card that was found.
#[tactic(auto, unfolding(crate::specs::Alone::six_at))]
fn refuse(card: Option<usize>) -> Result<(), Refused>
    ensures { check_option result ≡ six_at (found_at card) }
{
    match card {
        Some(place) => Err(Refused {
            refusal: Refusal::BuiltInsFaulty,
            place,
        }),
        None => Ok(()),
    }
}

// The refusal 6 of a document 0: a barred kind, or else the first error that it gives alone.
#[tactic(auto, using(ast_check::proofs::Told::handed_on, crate::proofs::Alone::zero_barred, crate::proofs::Alone::zero_alone))]
pub fn check_built_in(built_ins: Document) -> Result<(), Refused>
    ensures { check_option result
        ≡ zero_fault (document false built_ins.entry.text.now built_ins.entry.cards.now) }
{
    refuse(first_barred(built_ins.cards))?;
    refuse(first_error(built_ins))
}
