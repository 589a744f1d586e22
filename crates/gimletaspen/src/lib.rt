// The public entries for C: a slice is a pointer and a length, an enum's answer a struct of its numbers, handed back by value, so that a refused lookup has
// nothing that it could write. Where the answer has a C form of its own, the promise is the entry's in crate api.
// Stays: the parameters are those of C's functions, each slice by itself.
#![tactic(auto)]

ghost use Rattle.std.specs.Prelude.{◌≡◌, length, MatchOption};
ghost use Rattle.definition.specs.Answers.{root_kind};
ghost use Rattle.definition.specs.Outcomes.{type_field, is_subtype};
ghost use Rattle.api.specs.Promised.{Opens, Files, Adopts, Ignores, Builds, ChecksRows, Parses, ListsOrigins, ListsExtensions, MapsImplementers};
ghost use Rattle.api.specs.Answered.{FieldNumbers, SubtypeNumbers};
ghost use Rattle.gimletaspen.specs.Exported.{root_named, copied_name};

use api::answers::{FieldAnswer, SubtypeAnswer};
use ast::kinds;
use definition::{Answer, Drawing, OperationType};

#[unsafe(no_mangle)]
pub extern "C" fn gimletaspen_open(
    text: &mut [u8],
    words: &mut [u32],
    lent: &[u8],
    cards: &[u32],
) -> Answer
    ensures { Opens text.old words.old lent.now cards.now result
        text.new words.new }
{
    api::open(text, words, lent, cards).into()
}

#[unsafe(no_mangle)]
pub extern "C" fn gimletaspen_add_ast(
    text: &mut [u8],
    words: &mut [u32],
    lent: &[u8],
    cards: &[u32],
) -> Answer
    ensures { Files text.old words.old lent.now cards.now result
        text.new words.new }
{
    api::add_ast(text, words, lent, cards).into()
}

#[unsafe(no_mangle)]
pub extern "C" fn gimletaspen_adopt_orphan_extensions(text: &[u8], words: &mut [u32]) -> Answer
    ensures { Adopts text.now words.old result text.now words.new }
{
    api::adopt_orphan_extensions(text, words).into()
}

#[unsafe(no_mangle)]
pub extern "C" fn gimletaspen_ignore_builtin_redefinitions(text: &[u8], words: &mut [u32]) -> Answer
    ensures { Ignores text.now words.old result text.now words.new }
{
    api::ignore_builtin_redefinitions(text, words).into()
}

#[unsafe(no_mangle)]
pub extern "C" fn gimletaspen_build(
    text: &[u8],
    words: &[u32],
    rows: &mut [u32],
    errors: &mut [u32],
) -> Drawing
    ensures { Builds text.now words.now rows.old errors.old result
        rows.new errors.new }
{
    api::build(text, words, rows, errors).into()
}

#[unsafe(no_mangle)]
pub extern "C" fn gimletaspen_check_rows(text: &[u8], words: &[u32], rows: &[u32]) -> Answer
    ensures { ChecksRows text.now words.now rows.now result }
{
    api::check_rows(text, words, rows).into()
}

// Copies a name to the front of the lent bytes where it fits, and hands back its length.
#[tactic(auto, using(crate::proofs::Named::not_copied))]
fn copy_name(found: &[u8], name: &mut [u8]) -> usize
    ensures { (result ≡ length found.now)
        × (name.new ≡ copied_name name.old found.now) }
{
    if found.len() <= name.len() {
        store::copying::copy_text(name, found);
    }
    found.len()
}

// The root operation of a kind.
// Stays: the kind is a number that C hands in, told from the root here alone; a TryFrom would have these arms, and an error for the last one.
fn operation_of(kind: u32) -> Option<OperationType>
    ensures { MatchOption result
        ((kind ≡ 26 → ⊥)
        × (kind ≡ 27 → ⊥)
        × (kind ≡ 28 → ⊥))
        (λ op. kind ≡ root_kind op) }
{
    match kind {
        kinds::QUERY => Some(OperationType::Query),
        kinds::MUTATION => Some(OperationType::Mutation),
        kinds::SUBSCRIPTION => Some(OperationType::Subscription),
        _ => None,
    }
}

// The name of a root: 26 query, 27 mutation, 28 subscription; of any other number there is none.
fn root_of<'a>(text: &'a [u8], words: &[u32], rows: &[u32], kind: u32) -> &'a [u8]
    ensures { result.now ≡ root_named text.now words.now rows.now kind }
{
    let Some(op) = operation_of(kind) else {
        return &text[0..0];
    };
    api::root_operation(text, words, rows, op)
}

// Hands back the length of the root's name, and copies the name to the front of the lent bytes where it fits.
#[unsafe(no_mangle)]
pub extern "C" fn gimletaspen_root_operation(
    text: &[u8],
    words: &[u32],
    rows: &[u32],
    kind: u32,
    name: &mut [u8],
) -> usize
    ensures { (result ≡ length (root_named text.now words.now rows.now kind))
        × (name.new
        ≡ copied_name name.old (root_named text.now words.now rows.now kind)) }
{
    copy_name(root_of(text, words, rows, kind), name)
}

#[unsafe(no_mangle)]
pub extern "C" fn gimletaspen_type_field(
    text: &[u8],
    words: &[u32],
    rows: &[u32],
    type_name: &[u8],
    field: &[u8],
) -> FieldAnswer
    ensures { FieldNumbers
        (type_field text.now words.now rows.now type_name.now
        field.now)
        result }
{
    api::type_field(text, words, rows, type_name, field).into()
}

#[unsafe(no_mangle)]
pub extern "C" fn gimletaspen_is_subtype(
    text: &[u8],
    words: &[u32],
    rows: &[u32],
    general: &[u8],
    other: &[u8],
) -> SubtypeAnswer
    ensures { SubtypeNumbers
        (is_subtype text.now words.now rows.now general.now
        other.now)
        result }
{
    api::is_subtype(text, words, rows, general, other).into()
}

#[unsafe(no_mangle)]
pub extern "C" fn gimletaspen_iter_origins(
    text: &[u8],
    words: &[u32],
    rows: &[u32],
    list: &mut [u32],
) -> Answer
    ensures { ListsOrigins text.now words.now rows.now list.old result
        list.new }
{
    api::iter_origins(text, words, rows, list).into()
}

#[unsafe(no_mangle)]
pub extern "C" fn gimletaspen_extensions(
    text: &[u8],
    words: &[u32],
    rows: &[u32],
    list: &mut [u32],
) -> Answer
    ensures { ListsExtensions text.now words.now rows.now list.old result
        list.new }
{
    api::extensions(text, words, rows, list).into()
}

#[unsafe(no_mangle)]
pub extern "C" fn gimletaspen_implementers_map(
    text: &[u8],
    words: &[u32],
    rows: &[u32],
    list: &mut [u32],
) -> Answer
    ensures { MapsImplementers text.now words.now rows.now list.old result
        list.new }
{
    api::implementers_map(text, words, rows, list).into()
}

#[unsafe(no_mangle)]
pub extern "C" fn gimletaspen_parse(text: &[u8], cards: &mut [u32]) -> Answer
    ensures { Parses text.now cards.old result cards.new }
{
    api::parse(text, cards).into()
}
