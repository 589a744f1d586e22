// schema/mod.rs: fields and subtypes in lent rows. Of the type rows of one name the first counts, and in a list the first part of a name.
ghost use Rattle.std.specs.Prelude.{◌≡◌, true};
ghost use Rattle.definition.specs.Numbers.{field_lookup};
ghost use Rattle.definition.specs.Store.{sound};
ghost use Rattle.schema.specs.InStore.{field_in, is_subtype_in};

use ast::kinds;
use definition::{FieldFound, FieldLookupError};
use schema_rows::Schema;

// A field that the type has comes before a meta field.
pub fn type_field(
    schema: Schema,
    type_name: &[u8],
    field: &[u8],
) -> Result<FieldFound, FieldLookupError>
    requires { sound schema.text.now schema.words.now ≡ true }
    ensures { field_lookup result
        ≡ field_in schema.entry.text.now schema.entry.words.now schema.entry.rows.now
        type_name.now field.now }
{
    let located = schema.find_part(type_name, kinds::FIELD_DEFINITION, field);
    let Some(t) = located.owner else {
        return Err(FieldLookupError::NoSuchType);
    };
    if let Some(i) = located.part {
        return Ok(FieldFound::Explicit(schema.row(i).card));
    }
    let owner = schema.row(t);
    crate::roots::meta_field(schema, owner.what, type_name, field).ok_or(
        FieldLookupError::NoSuchField(owner.card),
    )
}

// An interface that the other type lists, or a union that lists the other name.
pub fn is_subtype(schema: Schema, general: &[u8], other: &[u8]) -> bool
    requires { sound schema.text.now schema.words.now ≡ true }
    ensures { result
        ≡ is_subtype_in schema.entry.text.now schema.entry.words.now schema.entry.rows.now
        general.now other.now }
{
    let union = schema.find_part(general, kinds::UNION_MEMBER, other);
    let Some(t) = union.owner else {
        return false;
    };
    match schema.row(t).what {
        kinds::INTERFACE_TYPE_DEFINITION => {
            let interface = schema.find_part(other, kinds::IMPLEMENTS_INTERFACE, general);
            interface.part.is_some()
        }
        kinds::UNION_TYPE_DEFINITION => union.part.is_some(),
        _ => false,
    }
}
