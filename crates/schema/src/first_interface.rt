// Which interfaces count for implementers_map: the first of its name under a type that is the first of its own.
ghost use Rattle.std.specs.Prelude.{◌≡◌, ◌/◌, ◌<◌, length};
ghost use Rattle.schema_rows.specs.Rows.{row_at};
ghost use Rattle.schema.specs.Owners.{LastType, is_listed_under};

use ast::kinds;
use schema_rows::Schema;

// Whether an interface counts: the first of its name under the type row t, which is the first of its own name. One search tells both: of an earlier
// type of the name, or where t is no type row, it finds another part or none.
pub fn is_first_interface(schema: Schema, t: usize, i: usize) -> bool
    requires { (i < length schema.rows.now / 3)
        × ((row_at schema.rows.now i).what ≡ 21)
        × LastType schema.rows.now t i }
    ensures { result ≡ is_listed_under schema.entry.text.now schema.entry.words.now schema.entry.rows.now t i }
{
    let owner = schema.card_name(schema.row(t).card);
    let name = schema.card_name(schema.row(i).card);
    let located = schema.find_part(owner, kinds::IMPLEMENTS_INTERFACE, name);
    located.part == Some(i)
}
