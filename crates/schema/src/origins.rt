// schema/mod.rs: the origins of the schema definition of lent rows, and the extensions among them.
ghost use Rattle.std.specs.Prelude.{◌≡◌, ◌≤◌, length};
ghost use Rattle.definition.specs.Lookups.{blocks, is_schema_part, origin_list, extension_list};
ghost use Rattle.definition.specs.LentRows.{is_type_row};
ghost use Rattle.schema_rows.specs.Rows.{row_of, rows_of, found_from};
ghost use Rattle.schema.specs.InStore.{Fills};
ghost use Rattle.schema.specs.Extensions.{is_new};

use ast::kinds;
use definition::ABSENT;
use definition::layout::ROW_WORDS;
use schema_rows::{Row, Schema};
use word_list::WordList;

// Directive uses and roots: the parts of the schema definition.
#[tactic(auto, unfolding(definition::specs::Lookups::is_schema_part, definition::specs::Lookups::is_row_of))]
fn is_schema_part(row: Row) -> bool
    ensures { result ≡ is_schema_part (row_of row) }
{
    row.what == kinds::DIRECTIVE || kinds::is_root(row.what)
}

// The first type row.
fn find_type_row(schema: Schema) -> Option<usize>
    ensures { result ≡ found_from is_type_row 0 (rows_of schema.entry) }
{
    (0..schema.row_count()).find(|&i| kinds::is_type(schema.row(i).what))
}

// The rows before the first type row: the schema definition and what stands under it.
fn schema_block<'text, 'lent>(schema: Schema<'text, 'lent>) -> Schema<'text, 'lent>
    ensures { rows_of result ≡ (blocks (rows_of schema.entry)).0 }
{
    let end = find_type_row(schema).unwrap_or(schema.row_count());
    Schema {
        rows: &schema.rows[..ROW_WORDS * end],
        ..schema
    }
}

// The origins of the schema definition's parts, in order. How many there are is handed back.
pub fn iter_origins(schema: Schema, list: &mut [u32]) -> usize
    requires { length (origin_list (rows_of schema)) ≤ length list.old }
    ensures { Fills list.old (origin_list (rows_of schema.entry)) list.new result }
{
    let block = schema_block(schema);
    let mut origins = WordList {
        words: list,
        len: 0,
    };
    for i in 0..block.row_count() {
        let row = block.row(i);
        if is_schema_part(row) {
            origins.push(row.origin);
        }
    }
    origins.len
}

// Whether an origin is an extension that is not among those listed.
#[tactic(auto, unfolding(crate::specs::Extensions::is_new, definition::specs::Lookups::is_card))]
fn is_new(listed: &[u32], origin: u32) -> bool
    ensures { result ≡ is_new listed.now origin }
{
    origin != ABSENT && !listed.contains(&origin)
}

// The extensions among the origins, each once, in order of first occurrence.
pub fn extensions(schema: Schema, list: &mut [u32]) -> usize
    requires { length (extension_list (rows_of schema)) ≤ length list.old }
    ensures { Fills list.old (extension_list (rows_of schema.entry)) list.new result }
{
    let block = schema_block(schema);
    let mut extensions = WordList {
        words: list,
        len: 0,
    };
    for i in 0..block.row_count() {
        let row = block.row(i);
        if is_schema_part(row) && is_new(extensions.as_slice(), row.origin) {
            extensions.push(row.origin);
        }
    }
    extensions.len
}
