// The errors that building pushes after those of reading: the orphans name by name, then the schema extensions that met no definition.
ghost use Rattle.std.specs.Prelude.{◌≡◌};
ghost use Rattle.definition.specs.Answers.{absent};
ghost use Rattle.definition.specs.Lists.{flat_map};
ghost use Rattle.from_ast_collisions.specs.Pushing.{Capacity, push_all};
ghost use Rattle.from_ast_collisions.specs.ErrorsByCards.{unmet_errors, is_bare, no_schema_errors_at, drawing_errors_at};
ghost use Rattle.from_ast_collisions.specs.Views.{cards, Held, HeldExtensions};
ghost use Rattle.from_ast_errors.specs.Views.{owned_view};
ghost use Rattle.from_ast_errors.specs.Written.{schema_card};

use crate::finished::Finished;
use crate::orphans::all_orphan_errors;
use ast::kinds;
use definition::build_error::BuildError;
use definition::layout;
use from_ast_collisions::merging::merge_schema_extensions;
use from_ast_collisions::owner::Owner;
use from_ast_collisions::pushing::Errors;
use from_ast_index::{Collection, card_in};

// A schema extension that met no schema; other headings give nothing.
#[tactic(auto, using(from_ast_collisions::proofs::Push::same_pushed, from_ast_collisions::proofs::Push::same_capacity, from_ast_collisions::proofs::Push::none_pushed, from_ast_collisions::proofs::Branches::unmet_other, from_ast_collisions::proofs::Branches::unmet_is))]
fn unmet_extension(collection: &Collection, heading: u32, errors: &mut Errors)
    requires { Capacity errors.old (unmet_errors (cards collection.now) heading) }
    ensures { errors.new ≡ push_all errors.old (unmet_errors (cards collection.now) heading) }
{
    if collection.kind(heading) == kinds::SCHEMA_EXTENSION {
        errors.push(BuildError::OrphanSchemaExtension, heading, None);
    }
}

// All of them.
#[tactic(auto, using(from_ast_collisions::proofs::Push::turn_first, from_ast_collisions::proofs::Push::turn_fits, from_ast_collisions::proofs::Push::turn_last))]
fn unmet_errors(collection: &Collection, headings: &[u32], errors: &mut Errors)
    requires { Capacity errors.old (flat_map (unmet_errors (cards collection.now)) headings.now) }
    ensures { errors.new ≡ push_all errors.old (flat_map (unmet_errors (cards collection.now)) headings.now) }
{
    for heading in headings {
        unmet_extension(collection, *heading, errors);
    }
}

// Whether no part stands under the row 4, which is the first.
#[tactic(auto, using(from_ast_collisions::proofs::Branches::bare_short, from_ast_collisions::proofs::Branches::bare_long))]
fn is_bare(rows: &[u32]) -> bool
    ensures { result ≡ is_bare rows.now }
{
    rows.len() <= layout::ROW_WORDS || rows[layout::ROW_WORDS] < kinds::DIRECTIVE
}

// Without a schema definition: adopting, or where default roots are set, the extensions are merged; else each is an error.
#[tactic(auto, using(from_ast_collisions::proofs::Push::same_pushed, from_ast_collisions::proofs::Push::same_capacity, from_ast_collisions::proofs::Branches::no_schema_adopted, from_ast_collisions::proofs::Branches::no_schema_unmet, from_ast_collisions::proofs::Branches::no_schema_met))]
fn no_schema_errors(
    collection: &Collection,
    schema: &Owner,
    headings: &[u32],
    adopt: bool,
    errors: &mut Errors,
)
    requires is_schema { schema.now.kind ≡ 4 }
    requires is_absent { schema.now.card ≡ absent }
    requires capacity { Capacity errors.old
        (no_schema_errors_at adopt (cards collection.now) schema.now.rows.now headings.now) }
    ensures { errors.new ≡ push_all errors.old
        (no_schema_errors_at adopt (cards collection.now) schema.now.rows.now headings.now) }
{
    if !adopt && is_bare(schema.rows) {
        unmet_errors(collection, headings, errors);
    } else {
        merge_schema_extensions(collection, headings, schema, errors);
    }
}

// All of them.
#[tactic(auto, using(from_ast_index::proofs::Cards::word_absent, from_ast_index::proofs::Cards::word_present, from_ast_collisions::proofs::Push::first_capacity, from_ast_collisions::proofs::Push::second_capacity, from_ast_collisions::proofs::Push::both_pushed, from_ast_collisions::proofs::Push::same_pushed, from_ast_collisions::proofs::Branches::drawing_defined, from_ast_collisions::proofs::Branches::drawing_both, from_ast_collisions::proofs::Branches::drawing_parts))]
pub fn drawing_errors(
    finished: &Finished,
    orphans: &[u32],
    extensions: &[u32],
    headings: &[u32],
    adopt: bool,
    errors: &mut Errors,
)
    requires held { Held finished.now.collection.words.now extensions.now }
    requires orphans_held { HeldExtensions finished.now.collection.words.now orphans.now }
    requires capacity { Capacity errors.old
        (drawing_errors_at adopt (owned_view finished.now.collection finished.now.owners.now) finished.now.rows.rows.now
        (schema_card finished.now.rows.rows.now) extensions.now orphans.now headings.now) }
    ensures { errors.new ≡ push_all errors.old
        (drawing_errors_at adopt (owned_view finished.now.collection finished.now.owners.now) finished.now.rows.rows.now
        (schema_card finished.now.rows.rows.now) extensions.now orphans.now headings.now) }
{
    all_orphan_errors(finished, orphans, extensions, adopt, errors);
    let schema = finished.schema();
    if card_in(schema.card).is_none() {
        no_schema_errors(&finished.collection, &schema, headings, adopt, errors);
    }
}
