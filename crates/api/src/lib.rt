// The public entries: SchemaBuilder's calls and the schema's lookups over a store that the caller lends. Each refuses in the fixed order and else does
// what the crates below do; none asks anything of its caller.
// Stays: an entry takes each slice by itself, as C lends it, and makes one value of those that go together before it calls.
#![tactic(auto)]

ghost use Rattle.definition.specs.Numbers.{done_answer, count_answer, drawing_answer, field_lookup, subtype_lookup};
ghost use Rattle.api.specs.Promised.{Opens, Files, Adopts, Ignores, Builds};
ghost use Rattle.api.specs.Promised.{ChecksRows, part_in, LiesIn, NamesRoot, FindsField, TellsSubtype, ListsOrigins, ListsExtensions, MapsImplementers};
ghost use Rattle.api.specs.Promised.{Parses};

use ast_check::Document;
use definition::layout::{GROUPS_CAPACITY, ORIGINS_CAPACITY};
use definition::refusal::{Refusal, Refused};
use definition::{Drawn, FieldFound, FieldLookupError, OperationType};
use refusals::{checked, checked_list};

pub mod answers;
pub mod refusals;

// Files document 0 with both switches off, over whatever the store held.
pub fn open(text: &mut [u8], words: &mut [u32], lent: &[u8], cards: &[u32]) -> Result<(), Refused>
    ensures { Opens text.old words.old lent.now cards.now (done_answer result) text.new
        words.new }
{
    store::open(text, words, Document { text: lent, cards })
}

// Files a document after those held.
pub fn add_ast(
    text: &mut [u8],
    words: &mut [u32],
    lent: &[u8],
    cards: &[u32],
) -> Result<(), Refused>
    ensures { Files text.old words.old lent.now cards.now (done_answer result) text.new
        words.new }
{
    store::add_ast(text, words, Document { text: lent, cards })
}

// Extensions without a definition are adopted from now on.
pub fn adopt_orphan_extensions(text: &[u8], words: &mut [u32]) -> Result<(), Refused>
    ensures { Adopts text.now words.old (done_answer result) text.now words.new }
{
    store::adopt_orphan_extensions(text, words)
}

// Documents filed from now on may define the types of document 0 again.
pub fn ignore_builtin_redefinitions(text: &[u8], words: &mut [u32]) -> Result<(), Refused>
    ensures { Ignores text.now words.old (done_answer result) text.now words.new }
{
    store::ignore_builtin_redefinitions(text, words)
}

// Draws the store's documents: rows and errors, with their counts and tallies.
#[tactic(auto, using(std::proofs::lemmas::Result::err_from_is_err_and, store_check::proofs::Sound::long, crate::proofs::LookupRefusal::numbered, crate::proofs::BuildRefusal::drawable, crate::proofs::BuildOutcomes::build_refused), unfolding(definition::specs::Outcomes::unbuilt))]
pub fn build(
    text: &[u8],
    words: &[u32],
    rows: &mut [u32],
    errors: &mut [u32],
) -> Result<Drawn, Refusal>
    ensures { Builds text.now words.now rows.old errors.old (drawing_answer result) rows.new
        errors.new }
{
    crate::refusals::check_build(text, words, rows.len(), errors.len())?;
    Ok(from_ast::build_inner(text, words, rows, errors))
}

// What a lookup over this store and these rows is refused with, which tells a refused `root_operation` from one that found no root.
#[tactic(auto, using(std::proofs::lemmas::Result::err_from_is_err_and, crate::proofs::LookupOutcomes::check_rows_by))]
pub fn check_rows(text: &[u8], words: &[u32], rows: &[u32]) -> Result<(), Refused>
    ensures { ChecksRows text.now words.now rows.now (done_answer result) }
{
    checked(text, words, rows)?;
    Ok(())
}

// The name of a root operation's type, as a part of the store's text; empty where there is none or the call is refused.
#[tactic(auto, using(crate::proofs::LookupRefusal::unrefused, crate::proofs::RootOutcomes::root_done))]
pub fn root_operation<'a>(
    text: &'a [u8],
    words: &[u32],
    rows: &[u32],
    op: OperationType,
) -> &'a [u8]
    ensures { NamesRoot text.now words.now rows.now op (part_in text.entry result)
        × LiesIn text.entry result }
{
    match checked(text, words, rows) {
        Ok(schema) => schema::roots::root_operation(schema, op),
        Err(_) => &text[0..0],
    }
}

// The field of a type, by both names.
#[tactic(auto, using(std::proofs::lemmas::Result::err_from_is_err_and, crate::proofs::LookupRefusal::unrefused, crate::proofs::LookupRefusal::numbered, crate::proofs::LookupOutcomes::type_field_by, crate::proofs::LookupOutcomes::finds_field, crate::proofs::LookupOutcomes::outcome_refused, crate::proofs::LookupOutcomes::outcome_done))]
pub fn type_field(
    text: &[u8],
    words: &[u32],
    rows: &[u32],
    type_name: &[u8],
    field: &[u8],
) -> Result<FieldFound, FieldLookupError>
    ensures { FindsField text.now words.now rows.now type_name.now
        field.now (field_lookup result) }
{
    schema::lookup::type_field(checked(text, words, rows)?, type_name, field)
}

// Whether the type of the other name implements the interface or is a member of the union of the general name.
#[tactic(auto, using(std::proofs::lemmas::Result::err_from_is_err_and, crate::proofs::LookupRefusal::unrefused, crate::proofs::LookupRefusal::numbered, crate::proofs::LookupOutcomes::is_subtype_by, crate::proofs::LookupOutcomes::tells_subtype, crate::proofs::LookupOutcomes::subtype_told, crate::proofs::LookupOutcomes::outcome_refused, crate::proofs::LookupOutcomes::outcome_done))]
pub fn is_subtype(
    text: &[u8],
    words: &[u32],
    rows: &[u32],
    general: &[u8],
    other: &[u8],
) -> Result<bool, Refusal>
    ensures { TellsSubtype text.now words.now rows.now general.now
        other.now (subtype_lookup result) }
{
    let schema = checked(text, words, rows)?;
    Ok(schema::lookup::is_subtype(schema, general, other))
}

// Writes the origin of each part of the schema definition.
#[tactic(auto, using(std::proofs::lemmas::Result::err_from_is_err_and, schema::proofs::OriginsFit::origins_fit, crate::proofs::ListRefusal::list_unrefused, crate::proofs::ListRefusal::list_capacity, crate::proofs::LookupRefusal::numbered, crate::proofs::ListOutcomes::iter_origins_listed, crate::proofs::ListOutcomes::list_refused))]
pub fn iter_origins(
    text: &[u8],
    words: &[u32],
    rows: &[u32],
    list: &mut [u32],
) -> Result<usize, Refused>
    ensures { ListsOrigins text.now words.now rows.now list.old (count_answer result)
        list.new }
{
    let schema = checked_list(text, words, rows, ORIGINS_CAPACITY, list.len())?;
    Ok(schema::origins::iter_origins(schema, list))
}

// Writes the extensions that added to the schema definition, each once.
#[tactic(auto, using(std::proofs::lemmas::Result::err_from_is_err_and, schema::proofs::OriginsFit::extensions_fit, crate::proofs::ListRefusal::list_unrefused, crate::proofs::ListRefusal::list_capacity, crate::proofs::LookupRefusal::numbered, crate::proofs::ListOutcomes::extensions_listed, crate::proofs::ListOutcomes::list_refused))]
pub fn extensions(
    text: &[u8],
    words: &[u32],
    rows: &[u32],
    list: &mut [u32],
) -> Result<usize, Refused>
    ensures { ListsExtensions text.now words.now rows.now list.old (count_answer result)
        list.new }
{
    let schema = checked_list(text, words, rows, ORIGINS_CAPACITY, list.len())?;
    Ok(schema::origins::extensions(schema, list))
}

// The types that implement each interface, group by group. How many groups there are is answered.
#[tactic(auto, using(std::proofs::lemmas::Result::err_from_is_err_and, crate::proofs::ListRefusal::list_unrefused, crate::proofs::ListRefusal::list_capacity, crate::proofs::LookupRefusal::numbered, crate::proofs::ListOutcomes::implementers_map_listed, crate::proofs::ListOutcomes::list_refused))]
pub fn implementers_map(
    text: &[u8],
    words: &[u32],
    rows: &[u32],
    list: &mut [u32],
) -> Result<usize, Refused>
    ensures { MapsImplementers text.now words.now rows.now list.old (count_answer result)
        list.new }
{
    let schema = checked_list(text, words, rows, GROUPS_CAPACITY, list.len())?;
    Ok(schema::implementers::implementers_map(schema, list))
}

// Reads a text of the type language into cards, as they are filed with it. No store is needed.
pub fn parse(text: &[u8], cards: &mut [u32]) -> Result<usize, Refused>
    ensures { Parses text.now cards.old (count_answer result) cards.new }
{
    parser::parse(text, cards)
}
