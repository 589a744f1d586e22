// The definitions that stand in braces, each with its card: of a field (3.6 of the specification), an enum value (3.9) and an input field (3.10).
ghost use Rattle.std.specs.Prelude.{◌≡◌, [], ◌∷◌};
ghost use Rattle.definition.specs.Grammar.{part};
ghost use Rattle.parser_lexer.specs.Sorts.{sort_number};
ghost use Rattle.parser_values.specs.Reads.{MayRead};
ghost use Rattle.parser_items.specs.Lists.{MustListed, Short};
ghost use Rattle.parser_items.specs.Definitions.{part_of, kind_of, first_name, field_rest, rest_of};

use crate::cards::Cards;
use crate::ending::end_item;
use ast::kinds::{ENUM_VALUE_DEFINITION, FIELD_DEFINITION, INPUT_VALUE_DEFINITION};
use parser_lexer::Cursor;
use parser_lexer::sorts::{ENUM_NAME, FIRST_NAME, Sort};
use parser_values::description::description;
use parser_values::directives::directives;
use parser_values::input_values::{argument_definitions, input_value_type};
use parser_values::types::type_reference;
use parser_values::{Depth, SyntaxError, take};

// Which of them.
// Stays: as a trait, each of the three would name its kind, first name and rest, and its parts of the grammar besides; the three matches below are shorter.
#[derive(Clone, Copy)]
pub enum ItemDefinition {
    Field,
    EnumValue,
    InputField,
}

fn kind_of(d: ItemDefinition) -> u32
    ensures { result ≡ kind_of d }
{
    match d {
        ItemDefinition::Field => FIELD_DEFINITION,
        ItemDefinition::EnumValue => ENUM_VALUE_DEFINITION,
        ItemDefinition::InputField => INPUT_VALUE_DEFINITION,
    }
}

// The first sort that its name may have: no enum value is named `true`, `false` or `null`.
fn first_name(d: ItemDefinition) -> Sort
    ensures { sort_number result ≡ first_name d }
{
    match d {
        ItemDefinition::Field => FIRST_NAME,
        ItemDefinition::EnumValue => ENUM_NAME,
        ItemDefinition::InputField => FIRST_NAME,
    }
}

// What a field has after its name: arguments or none, a colon, the type, and directives.
fn field_rest(c: Cursor) -> Result<Cursor, SyntaxError>
    ensures { MayRead field_rest c.entry 0 result }
{
    let k = argument_definitions(c)?;
    let j = take(k, Sort::Colon, Sort::Colon)?;
    let i = type_reference(j, Depth::full())?;
    directives(i)
}

// What a definition has after its name.
fn rest(c: Cursor, d: ItemDefinition) -> Result<Cursor, SyntaxError>
    ensures { MayRead (rest_of d) c.entry 0 result }
{
    match d {
        ItemDefinition::Field => field_rest(c),
        ItemDefinition::EnumValue => directives(c),
        ItemDefinition::InputField => input_value_type(c),
    }
}

// A definition: a description or none, a name, and the rest. Compiled into each of its three callers: cursors are large to hand over.
#[inline(always)]
pub fn definition<'a>(
    c: Cursor<'a>,
    cards: &mut Cards,
    d: ItemDefinition,
) -> Result<Cursor<'a>, SyntaxError>
    requires { Short c }
    ensures { MustListed (part (part_of d) ∷ []) c.entry result cards.old cards.new }
{
    let name = description(c);
    let k = take(name, first_name(d), Sort::Name)?;
    let j = rest(k, d)?;
    Ok(end_item(cards, kind_of(d), c, name, j))
}
