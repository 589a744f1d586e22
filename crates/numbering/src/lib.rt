// Names numbered: each card gets the number of the first card with its name. Then two names are equal exactly where their numbers are, and a
// search for a name is a read of an array: the hash maps of schema/from_ast.rs.
#![tactic(auto)]

ghost use Rattle.std.specs.Prelude.{◌≤◌, ◌<◌, length};
ghost use Rattle.definition.specs.Refusals.{card_capacity};
ghost use Rattle.numbering.specs.Named.{named, count};
ghost use Rattle.numbering.specs.Numbers.{NumbersAre};
ghost use Rattle.numbering.specs.Hashes.{HashesAre};
ghost use Rattle.numbering.specs.Lookup.{TableHolds};

use hashes::HashedNames;
use names::Names;
use table::Crowded;

pub mod hashes;
pub mod lookup;
pub mod names;
pub mod order;
pub mod table;

// How names were numbered, which says what the table holds then.
#[derive(Clone, Copy)]
pub enum Numbering {
    ByTable,
    ByOrder,
}

// The numbers of the names of all cards, and the way in which they were made: names that crowd one part of the table are numbered by their order.
// The hashes of the names are left in `hashes`, and in `table` what a name can be sought by (`lookup::find_name`).
pub fn number_names(
    names: Names,
    hashes: &mut [u32],
    table: &mut [u32],
    numbers: &mut [u32],
) -> Numbering
    requires { (count names ≤ card_capacity)
        × (count names ≤ length hashes.old)
        × (count names ≤ length table.old)
        × (32 < length table.old)
        × (length table.old ≤ 65536)
        × (count names ≤ length numbers.old) }
    ensures numbered { NumbersAre (named names.entry) (count names.entry)
        numbers.old numbers.new }
    ensures hashed { HashesAre (named names.entry) (count names.entry) hashes.new }
    ensures sought { TableHolds (named names.entry) (count names.entry) hashes.new table.new result }
{
    crate::hashes::hash_names(names, hashes);
    let hashed = HashedNames { names, hashes };
    match crate::table::number_by_table(hashed, table, numbers) {
        Ok(()) => Numbering::ByTable,
        Err(Crowded) => {
            crate::order::number_by_order(hashed, table, numbers);
            Numbering::ByOrder
        }
    }
}
