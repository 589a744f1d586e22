// The kinds of cards and where parts may stand. Headings follow `ast::Definition`, in its order.
// Stays: a kind is a word of a lent card, which nothing has vouched for where it is read, and each function answers for every word; an enum would have one more case for all other words, and a conversion before each call.
ghost use Rattle.std.specs.Prelude.{◌≡◌, [], ◌∷◌, ◌&&◌, ◌+◌, ◌≤◌, eqb, leb, length};
ghost use Rattle.definition.specs.Cards.{is_heading, is_part, is_root, is_type, is_extension, definition_of, part_order, place_in};

pub const OPERATION_DEFINITION: u32 = 1;

pub const FRAGMENT_DEFINITION: u32 = 2;

pub const DIRECTIVE_DEFINITION: u32 = 3;

pub const SCHEMA_DEFINITION: u32 = 4;

pub const SCALAR_TYPE_DEFINITION: u32 = 5;

pub const OBJECT_TYPE_DEFINITION: u32 = 6;

pub const INTERFACE_TYPE_DEFINITION: u32 = 7;

pub const UNION_TYPE_DEFINITION: u32 = 8;

pub const ENUM_TYPE_DEFINITION: u32 = 9;

pub const INPUT_OBJECT_TYPE_DEFINITION: u32 = 10;

pub const SCHEMA_EXTENSION: u32 = 11;

pub const SCALAR_TYPE_EXTENSION: u32 = 12;

pub const OBJECT_TYPE_EXTENSION: u32 = 13;

pub const INTERFACE_TYPE_EXTENSION: u32 = 14;

pub const UNION_TYPE_EXTENSION: u32 = 15;

pub const ENUM_TYPE_EXTENSION: u32 = 16;

pub const INPUT_OBJECT_TYPE_EXTENSION: u32 = 17;

pub const DIRECTIVE: u32 = 20;

pub const IMPLEMENTS_INTERFACE: u32 = 21;

pub const FIELD_DEFINITION: u32 = 22;

pub const UNION_MEMBER: u32 = 23;

pub const ENUM_VALUE_DEFINITION: u32 = 24;

pub const INPUT_VALUE_DEFINITION: u32 = 25;

pub const QUERY: u32 = 26;

pub const MUTATION: u32 = 27;

pub const SUBSCRIPTION: u32 = 28;

// How much more an extension's kind is than its definition's.
const EXTENSION_STEP: u32 = 7;

#[tactic(auto, unfolding(definition::specs::Cards::is_heading))]
pub fn is_heading(kind: u32) -> bool
    ensures { result ≡ is_heading kind }
{
    matches!(kind, OPERATION_DEFINITION..=INPUT_OBJECT_TYPE_EXTENSION)
}

#[tactic(auto, unfolding(definition::specs::Cards::is_part))]
pub fn is_part(kind: u32) -> bool
    ensures { result ≡ is_part kind }
{
    matches!(kind, DIRECTIVE..=SUBSCRIPTION)
}

#[tactic(auto, unfolding(definition::specs::Cards::is_root))]
pub fn is_root(kind: u32) -> bool
    ensures { result ≡ is_root kind }
{
    matches!(kind, QUERY..=SUBSCRIPTION)
}

#[tactic(auto, unfolding(definition::specs::Cards::is_type))]
pub fn is_type(kind: u32) -> bool
    ensures { result ≡ is_type kind }
{
    matches!(kind, SCALAR_TYPE_DEFINITION..=INPUT_OBJECT_TYPE_DEFINITION)
}

#[tactic(auto, unfolding(definition::specs::Cards::is_extension))]
pub fn is_extension(kind: u32) -> bool
    ensures { result ≡ is_extension kind }
{
    matches!(kind, SCHEMA_EXTENSION..=INPUT_OBJECT_TYPE_EXTENSION)
}

pub fn is_type_extension(kind: u32) -> bool
    ensures { result ≡ (leb 12 kind && leb kind 17) }
{
    matches!(kind, SCALAR_TYPE_EXTENSION..=INPUT_OBJECT_TYPE_EXTENSION)
}

// The kind of the extensions of what a definition of the kind defines.
pub fn extension_of(kind: u32) -> u32
    requires { kind ≤ 17 }
    ensures { result ≡ kind + 7 }
{
    kind + EXTENSION_STEP
}

// Whether the first kind is that of the extensions of what a definition of the second kind defines.
pub fn is_extension_of(kind: u32, definition: u32) -> bool
    ensures { result ≡ eqb kind (definition + 7) }
{
    kind.checked_sub(EXTENSION_STEP) == Some(definition)
}

// The definition's kind of what a heading defines or extends; 0 for operations, fragments and directives.
// Stays: 0 is no kind, here and in specs/; of six callers two match all kinds and four ask of what has one, which would take an Option apart again by `unwrap_or(0)`.
#[tactic(auto, unfolding(definition::specs::Cards::definition_of))]
pub fn definition_of(kind: u32) -> u32
    ensures { result ≡ definition_of kind }
{
    match kind {
        SCHEMA_EXTENSION.. => kind - EXTENSION_STEP,
        SCHEMA_DEFINITION.. => kind,
        _ => 0,
    }
}

// The place of a part under a schema: directive uses, then roots.
#[tactic(auto, unfolding(definition::specs::Cards::part_order, definition::specs::Cards::place_in, definition::specs::Lists::any))]
fn place_in_schema(part: u32) -> u32
    ensures { result ≡ place_in (part_order 4) part }
{
    match part {
        DIRECTIVE => 0,
        QUERY..=SUBSCRIPTION => 1,
        _ => 2,
    }
}

// The place of a part under an object or an interface.
#[tactic(auto, unfolding(definition::specs::Cards::part_order, definition::specs::Cards::place_in, definition::specs::Lists::any))]
fn place_in_object(part: u32) -> u32
    ensures { result ≡ place_in (part_order 6) part }
{
    match part {
        IMPLEMENTS_INTERFACE => 0,
        DIRECTIVE => 1,
        FIELD_DEFINITION => 2,
        _ => 3,
    }
}

// The place of a part under a heading whose own parts follow its directive uses.
#[tactic(auto, unfolding(definition::specs::Cards::part_order, definition::specs::Cards::place_in, definition::specs::Lists::any))]
fn place_after_directives(part: u32, own: u32) -> u32
    ensures { result ≡ place_in ((20 ∷ []) ∷ (own ∷ []) ∷ []) part }
{
    match part {
        DIRECTIVE => 0,
        _ if part == own => 1,
        _ => 2,
    }
}

// The place of a part's kind in the order under a heading, from 0; as many as `places_under` has where it has none.
// Stays: places are compared, and a part without one comes after all others, as a number past the last does; None is before every Some.
#[tactic(auto, unfolding(definition::specs::Cards::part_order, definition::specs::Cards::place_in, definition::specs::Lists::any))]
pub fn place_of(heading: u32, part: u32) -> u32
    ensures { result ≡ place_in (part_order (definition_of heading)) part }
{
    match definition_of(heading) {
        SCHEMA_DEFINITION => place_in_schema(part),
        SCALAR_TYPE_DEFINITION => u32::from(part != DIRECTIVE),
        OBJECT_TYPE_DEFINITION | INTERFACE_TYPE_DEFINITION => place_in_object(part),
        UNION_TYPE_DEFINITION => place_after_directives(part, UNION_MEMBER),
        ENUM_TYPE_DEFINITION => place_after_directives(part, ENUM_VALUE_DEFINITION),
        INPUT_OBJECT_TYPE_DEFINITION => place_after_directives(part, INPUT_VALUE_DEFINITION),
        _ => 0,
    }
}

// How many places there are for parts under a heading.
#[tactic(auto, unfolding(definition::specs::Cards::part_order))]
pub fn places_under(heading: u32) -> u32
    ensures { result ≡ length (part_order (definition_of heading)) }
{
    match definition_of(heading) {
        SCALAR_TYPE_DEFINITION => 1,
        OBJECT_TYPE_DEFINITION | INTERFACE_TYPE_DEFINITION => 3,
        SCHEMA_DEFINITION | UNION_TYPE_DEFINITION..=INPUT_OBJECT_TYPE_DEFINITION => 2,
        _ => 0,
    }
}
