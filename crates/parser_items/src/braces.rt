// Lists in braces, of at least one item: root operations, and the definitions of fields, enum values and input fields.
ghost use Rattle.std.specs.Prelude.{[], ◌∷◌};
ghost use Rattle.definition.specs.Grammar.{Part, part, Root, Root*, Roots, Roots?, Field, Field*, Fields, Fields?};
ghost use Rattle.definition.specs.Grammar.{EnumValue, EnumValue*, EnumValues, EnumValues?, InputField, InputField*, InputFields, InputFields?};
ghost use Rattle.parser_items.specs.Lists.{MustListed, MayListed, Short};
ghost use Rattle.parser_items.specs.Braces.{InBraces, roots_rules, fields_rules, enum_values_rules, input_fields_rules};

use crate::cards::Cards;
use crate::definitions::{ItemDefinition, definition};
use crate::operations::root;
use parser_lexer::Cursor;
use parser_lexer::sorts::Sort;
use parser_values::{SyntaxError, take};

// What stands in braces: the parts of the grammar that are the list or none, the list, an item, and the items after the first.
trait Braced {
    ghost optional: { Part };

    ghost list: { Part };

    ghost item: { Part };

    ghost more: { Part };

    fn read<'a>(c: Cursor<'a>, cards: &mut Cards) -> Result<Cursor<'a>, SyntaxError>
        requires { Short c }
        ensures { MustListed (part item ∷ []) c.entry result cards.old cards.new };

    // What the grammar has for them.
    ghost rules: { InBraces optional list item more };
}

struct Operations;

impl Braced for Operations {
    ghost optional = { Roots? };

    ghost list = { Roots };

    ghost item = { Root };

    ghost more = { Root* };

    fn read<'a>(c: Cursor<'a>, cards: &mut Cards) -> Result<Cursor<'a>, SyntaxError> {
        root(c, cards)
    }

    ghost rules = { roots_rules };
}

struct FieldDefinitions;

impl Braced for FieldDefinitions {
    ghost optional = { Fields? };

    ghost list = { Fields };

    ghost item = { Field };

    ghost more = { Field* };

    fn read<'a>(c: Cursor<'a>, cards: &mut Cards) -> Result<Cursor<'a>, SyntaxError> {
        definition(c, cards, ItemDefinition::Field)
    }

    ghost rules = { fields_rules };
}

struct EnumValueDefinitions;

impl Braced for EnumValueDefinitions {
    ghost optional = { EnumValues? };

    ghost list = { EnumValues };

    ghost item = { EnumValue };

    ghost more = { EnumValue* };

    fn read<'a>(c: Cursor<'a>, cards: &mut Cards) -> Result<Cursor<'a>, SyntaxError> {
        definition(c, cards, ItemDefinition::EnumValue)
    }

    ghost rules = { enum_values_rules };
}

struct InputFieldDefinitions;

impl Braced for InputFieldDefinitions {
    ghost optional = { InputFields? };

    ghost list = { InputFields };

    ghost item = { InputField };

    ghost more = { InputField* };

    fn read<'a>(c: Cursor<'a>, cards: &mut Cards) -> Result<Cursor<'a>, SyntaxError> {
        definition(c, cards, ItemDefinition::InputField)
    }

    ghost rules = { input_fields_rules };
}

// A list: `{`, items and `}`.
fn items<'a, B: Braced>(c: Cursor<'a>, cards: &mut Cards) -> Result<Cursor<'a>, SyntaxError>
    requires { Short c }
    ensures { MustListed (part B.list ∷ []) c.entry result cards.old cards.new }
{
    let mut k = take(c, Sort::BraceOpens, Sort::BraceOpens)?;
    loop {
        let j = B::read(k, cards)?;
        if j.sort == Sort::BraceCloses {
            return Ok(j.next());
        }
        k = j;
    }
}

// A list, or none.
fn optional_items<'a, B: Braced>(
    c: Cursor<'a>,
    cards: &mut Cards,
) -> Result<Cursor<'a>, SyntaxError>
    requires { Short c }
    ensures { MayListed (part B.optional ∷ []) c.entry result cards.old cards.new }
{
    if c.sort != Sort::BraceOpens {
        return Ok(c);
    }
    items::<B>(c, cards)
}

// The root operations of a schema: 3.3 of the specification.
pub fn roots<'a>(c: Cursor<'a>, cards: &mut Cards) -> Result<Cursor<'a>, SyntaxError>
    requires { Short c }
    ensures { MustListed (part Roots ∷ []) c.entry result cards.old cards.new }
{
    items::<Operations>(c, cards)
}

// The root operations of a schema's extension, or none.
pub fn optional_roots<'a>(c: Cursor<'a>, cards: &mut Cards) -> Result<Cursor<'a>, SyntaxError>
    requires { Short c }
    ensures { MayListed (part Roots? ∷ []) c.entry result cards.old cards.new }
{
    optional_items::<Operations>(c, cards)
}

// The fields of a type, or none: 3.6, FieldsDefinition.
pub fn fields<'a>(c: Cursor<'a>, cards: &mut Cards) -> Result<Cursor<'a>, SyntaxError>
    requires { Short c }
    ensures { MayListed (part Fields? ∷ []) c.entry result cards.old cards.new }
{
    optional_items::<FieldDefinitions>(c, cards)
}

// The values of an enum, or none: 3.9, EnumValuesDefinition.
pub fn enum_values<'a>(c: Cursor<'a>, cards: &mut Cards) -> Result<Cursor<'a>, SyntaxError>
    requires { Short c }
    ensures { MayListed (part EnumValues? ∷ []) c.entry result cards.old cards.new }
{
    optional_items::<EnumValueDefinitions>(c, cards)
}

// The fields of an input object, or none: 3.10, InputFieldsDefinition.
pub fn input_fields<'a>(c: Cursor<'a>, cards: &mut Cards) -> Result<Cursor<'a>, SyntaxError>
    requires { Short c }
    ensures { MayListed (part InputFields? ∷ []) c.entry result cards.old cards.new }
{
    optional_items::<InputFieldDefinitions>(c, cards)
}
