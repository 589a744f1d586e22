// Parts that are merged into a type or the schema: a part collides where the finished rows have another card that stands for its name.
// Stays: that a card is a stored one is asked of each function that reads its name: numbers are words of arrays, and a struct for a number would be made, and its fact proved, at the same calls.
ghost use Rattle.std.specs.Prelude.{◌≡◌, true, ◌+◌, ◌≤◌, ◌<◌, [], ◌∷◌, length, drop};
ghost use Rattle.definition.specs.Lists.{flat_map};
ghost use Rattle.definition.specs.Cards.{is_part};
ghost use Rattle.definition.specs.Errors.{collision_number};
ghost use Rattle.definition.specs.Merge.{error_numbers};
ghost use Rattle.definition.specs.Numbers.{error_number};
ghost use Rattle.definition.specs.Store.{cards_used_of};
ghost use Rattle.store_reader.specs.Stored.{card_kind, card_at};
ghost use Rattle.from_ast_collisions.specs.Pushing.{Capacity, push_all};
ghost use Rattle.from_ast_collisions.specs.Earlier.{stands_for, earlier_in, row_offset};
ghost use Rattle.from_ast_collisions.specs.Views.{cards, collision, merged, schema_merged};

use crate::owner::Owner;
use crate::pushing::Errors;
use ast::kinds;
use definition::build_error::BuildError;
use definition::layout;
use from_ast_index::Collection;

// The error of a part that comes again under a heading of the kind. No interface has the parts of the last three cases: there the definition has the numbers
// that follow those of the same parts elsewhere.
#[tactic(auto, using(crate::proofs::Turns::collision_interface, crate::proofs::Turns::collision_other, crate::proofs::Turns::collision_root))]
fn collision_error(kind: u32, part: u32) -> BuildError
    requires least { 21 ≤ part }
    requires most { part ≤ 28 }
    requires known { collision_number kind part ≤ error_numbers }
    ensures { error_number result ≡ collision_number kind part }
{
    match (part, kind == kinds::INTERFACE_TYPE_DEFINITION) {
        (kinds::IMPLEMENTS_INTERFACE, false) => BuildError::DuplicateImplementsInterfaceInObject,
        (kinds::IMPLEMENTS_INTERFACE, true) => BuildError::DuplicateImplementsInterfaceInInterface,
        (kinds::FIELD_DEFINITION, false) => BuildError::ObjectFieldNameCollision,
        (kinds::FIELD_DEFINITION, true) => BuildError::InterfaceFieldNameCollision,
        (kinds::UNION_MEMBER, false) => BuildError::UnionMemberNameCollision,
        (kinds::ENUM_VALUE_DEFINITION, false) => BuildError::EnumValueNameCollision,
        (kinds::INPUT_VALUE_DEFINITION, false) => BuildError::InputFieldNameCollision,
        (_, false) => BuildError::DuplicateRootOperation,
        (kinds::UNION_MEMBER, true) => BuildError::InputFieldNameCollision,
        (kinds::ENUM_VALUE_DEFINITION, true) => BuildError::UnionMemberNameCollision,
        (_, true) => BuildError::DuplicateImplementsInterfaceInObject,
    }
}

// Where the row of what and card begins, or the end of the whole rows; it does not begin before `from`.
pub fn seek_row(rows: &[u32], from: usize, what: u32, card: u32) -> usize
    requires inside { from ≤ length rows.now }
    requires not_before { row_offset what card rows.now ≡ from + row_offset what card (drop from rows.now) }
    ensures { result ≡ row_offset what card rows.now }
{
    let left = &rows[from..];
    for (n, row) in left.chunks_exact(layout::ROW_WORDS).enumerate() {
        if row[0] == what && row[1] == card {
            return from + layout::ROW_WORDS * n;
        }
    }
    from + layout::ROW_WORDS * (left.len() / layout::ROW_WORDS)
}

// Whether the row of what and card stands for the part. Roots are told by their kind alone.
#[tactic(auto, using(crate::proofs::Turns::stands_other, crate::proofs::Turns::stands_root, crate::proofs::Turns::stands_stored))]
fn stands_for(collection: &Collection, part: u32, what: u32, card: u32) -> bool
    requires { part < cards_used_of collection.now.words.now }
    ensures { result ≡ stands_for (cards collection.now)
        (card_at collection.now.text.now collection.now.words.now part) what card }
{
    let kind = collection.kind(part);
    what == kind && (kinds::is_root(kind) || collection.same_stored(part, card))
}

// The card that stands for the part, among the rows under that of its owner.
#[tactic(auto, using(crate::proofs::Turns::in_stop, crate::proofs::Turns::in_hit, crate::proofs::Turns::in_miss, crate::proofs::Turns::in_end))]
fn find_earlier(collection: &Collection, under: &[u32], part: u32) -> Option<u32>
    requires { part < cards_used_of collection.now.words.now }
    ensures { result ≡ earlier_in
        (stands_for (cards collection.now) (card_at collection.now.text.now collection.now.words.now part))
        under.now }
{
    for row in under.chunks_exact(layout::ROW_WORDS) {
        if row[0] < kinds::DIRECTIVE {
            return None;
        }
        if stands_for(collection, part, row[0], row[1]) {
            return Some(row[1]);
        }
    }
    None
}

// The error of a part that is merged into the row of its owner, where another card stands for it. Directive uses all stay.
#[tactic(auto, using(crate::proofs::Push::same_pushed, crate::proofs::Push::same_capacity, crate::proofs::Push::none_pushed, crate::proofs::Merge::collision_use, crate::proofs::Merge::collision_nothing, crate::proofs::Merge::collision_own, crate::proofs::Merge::collision_other, crate::proofs::Merge::collision_kind, crate::proofs::Merge::number_most))]
fn push_collision(collection: &Collection, owner: &Owner, part: u32, errors: &mut Errors)
    requires stored { part < cards_used_of collection.now.words.now }
    requires is_part { is_part (card_kind collection.now.words.now part) ≡ true }
    requires capacity { Capacity errors.old (collision collection.now owner.now part) }
    ensures { errors.new ≡ push_all errors.old (collision collection.now owner.now part) }
{
    let what = collection.kind(part);
    if what == kinds::DIRECTIVE {
        return;
    }
    if let Some(card) = find_earlier(collection, owner.under, part) {
        if card != part {
            errors.push(collision_error(owner.kind, what), part, Some(card));
        }
    }
}

// The errors of the parts of a heading that are merged into the row of their owner.
#[tactic(auto, using(crate::proofs::Push::going_start, crate::proofs::Push::going_as, crate::proofs::Push::next_capacity, crate::proofs::Push::next_on, crate::proofs::Push::going_end, crate::proofs::Merge::merge_all, crate::proofs::Merge::merge_next, crate::proofs::Merge::merge_stop, crate::proofs::Merge::merge_end))]
pub fn merge_errors(collection: &Collection, owner: &Owner, heading: u32, errors: &mut Errors)
    requires { Capacity errors.old (merged (cards collection.now) owner.now heading) }
    ensures { errors.new ≡ push_all errors.old (merged (cards collection.now) owner.now heading) }
{
    for part in heading as usize + 1..collection.cards_used() {
        if !kinds::is_part(collection.kind(part as u32)) {
            return;
        }
        push_collision(collection, owner, part as u32, errors);
    }
}

// The errors of a schema extension that is merged; other headings give none.
#[tactic(auto, using(crate::proofs::Push::same_pushed, crate::proofs::Push::same_capacity, crate::proofs::Push::none_pushed, crate::proofs::Branches::schema_merge_other, crate::proofs::Branches::schema_merged_is))]
fn merge_schema_extension(
    collection: &Collection,
    schema: &Owner,
    heading: u32,
    errors: &mut Errors,
)
    requires is_schema { schema.now.kind ≡ 4 }
    requires capacity { Capacity errors.old (schema_merged (cards collection.now) schema.now heading) }
    ensures { errors.new ≡ push_all errors.old (schema_merged (cards collection.now) schema.now heading) }
{
    if collection.kind(heading) == kinds::SCHEMA_EXTENSION {
        merge_errors(collection, schema, heading, errors);
    }
}

// The errors of all schema extensions among the headings.
#[tactic(auto, using(crate::proofs::Push::turn_first, crate::proofs::Push::turn_fits, crate::proofs::Push::turn_last))]
pub fn merge_schema_extensions(
    collection: &Collection,
    headings: &[u32],
    schema: &Owner,
    errors: &mut Errors,
)
    requires is_schema { schema.now.kind ≡ 4 }
    requires capacity { Capacity errors.old (flat_map (schema_merged (cards collection.now) schema.now) headings.now) }
    ensures { errors.new
        ≡ push_all errors.old (flat_map (schema_merged (cards collection.now) schema.now) headings.now) }
{
    for heading in headings {
        merge_schema_extension(collection, schema, *heading, errors);
    }
}
