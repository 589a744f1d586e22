// A name sought among the cards that were numbered. It may be that of none of them, as where a long document is gone through block by block.
ghost use Rattle.std.specs.Prelude.{◌≡◌, ◌+◌, ◌-◌, ◌≤◌, ◌<◌, length};
ghost use Rattle.numbering.specs.Named.{named, count};
ghost use Rattle.numbering.specs.Table.{most_probes, Held};
ghost use Rattle.numbering.specs.Order.{CardsSorted};
ghost use Rattle.numbering.specs.Lookup.{TableHolds, FoundAs, Begins, is_earlier};

use crate::Numbering;
use crate::hashes::{HashedNames, Sought};
use crate::table::{MOST_PROBES, home_of, probe};
use std::cmp::Ordering;

// The name sought in a table of the first cards of each name.
fn find_by_table(hashed: HashedNames, table: &[u32], sought: Sought) -> Option<u32>
    requires { (most_probes < length table.now)
        × (length table.now ≤ 65536)
        × Held (named hashed.names) (length table.now - most_probes) (count hashed.names) table.now }
    ensures { FoundAs (named hashed.entry.names) (count hashed.entry.names) sought.entry.name.now result }
{
    let start = home_of(sought.hash, table.len() - MOST_PROBES);
    let d = probe(hashed, table, start, sought)?;
    table[start + d].checked_sub(1)
}

// Whether a card stands before all cards of the name, in the order by hashes and then by names.
// Stays: as in `order::compare_cards`.
fn is_earlier(hashed: HashedNames, card: u32, sought: Sought) -> bool
    ensures { result ≡ is_earlier (named hashed.entry.names) hashed.entry.hashes.now sought.entry.name.now sought.entry.hash card }
{
    let card = card as usize;
    match ast::word(hashed.hashes, card).cmp(&sought.hash) {
        Ordering::Equal => name::compare(hashed.names.name(card), sought.name).is_lt(),
        by_hash => by_hash.is_lt(),
    }
}

// The place at which the cards of the name begin in the order, or would begin.
fn place_of(hashed: HashedNames, order: &[u32], sought: Sought) -> usize
    requires { (length order.now ≡ count hashed.names)
        × CardsSorted (named hashed.names) hashed.hashes.now (count hashed.names) order.now }
    ensures { Begins (named hashed.entry.names) (count hashed.entry.names) hashed.entry.hashes.now order.now sought.entry.name.now sought.entry.hash result }
{
    order.partition_point(|card| is_earlier(hashed, *card, sought))
}

// The name sought in the order of all cards.
fn find_by_order(hashed: HashedNames, order: &[u32], sought: Sought) -> Option<u32>
    requires { (count hashed.names ≤ length order.now)
        × CardsSorted (named hashed.names) hashed.hashes.now (count hashed.names) order.now }
    ensures { FoundAs (named hashed.entry.names) (count hashed.entry.names) sought.entry.name.now result }
{
    let order = &order[..hashed.names.count()];
    let card = *order.get(place_of(hashed, order, sought))?;
    if hashed.has_name(card, sought) {
        Some(card)
    } else {
        None
    }
}

// The first card that has the name, after `number_names` left the hashes and the table of the cards.
pub fn find_name(
    hashed: HashedNames,
    table: &[u32],
    numbering: Numbering,
    sought: Sought,
) -> Option<u32>
    requires { TableHolds (named hashed.names) (count hashed.names) hashed.hashes.now table.now numbering
        × (count hashed.names ≤ length table.now)
        × (32 < length table.now)
        × (length table.now ≤ 65536) }
    ensures { FoundAs (named hashed.entry.names) (count hashed.entry.names) sought.entry.name.now result }
{
    match numbering {
        Numbering::ByTable => find_by_table(hashed, table, sought),
        Numbering::ByOrder => find_by_order(hashed, table, sought),
    }
}
