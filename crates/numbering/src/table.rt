// Names numbered by a table of the first cards of each name, sought by their hashes. No hash need be good for that: where names crowd one part of
// the table it gives up, and they are numbered in another way.
ghost use Rattle.std.specs.Prelude.{◌≡◌, true, ℕ, ◌+◌, ◌-◌, ◌≤◌, ◌<◌, length, get_or, is_ok, IfSome};
ghost use Rattle.std.specs.Option.{unwrap_or};
ghost use Rattle.definition.specs.Refusals.{card_capacity};
ghost use Rattle.numbering.specs.Named.{named, count};
ghost use Rattle.numbering.specs.Numbers.{Rest};
ghost use Rattle.numbering.specs.Table.{most_probes, home, Probed, Held, Turned, ByTable};

use crate::hashes::{HashedNames, Sought};

// How many words a search reads at most, and how many more words a table has than places where one may begin.
pub const MOST_PROBES: usize = 32;

// What a hash is multiplied by so that hashes which stand close together begin far apart, and how many numbers a word has.
const HOME_FACTOR: u32 = 2654435769;

const HOME_RANGE: u64 = 4294967296;

// Names that crowd one part of a table.
#[derive(Drop)]
pub struct Crowded;

// Where the search for a hash begins.
pub fn home_of(hash: u32, slots: usize) -> usize
    requires { (0 < slots)
        × (slots ≤ 65536) }
    ensures { (result ≡ home slots hash)
        × (result < slots) }
{
    let mixed = hash.wrapping_mul(HOME_FACTOR);
    (u64::from(mixed) * slots as u64 / HOME_RANGE) as usize
}

// Stays: two functions write the table and one reads it; a struct for each kind of borrow would be longer than the bounds on its length.
// How far from the start a card of the name stands, or the first word 0, if either is near.
pub(crate) fn probe(
    hashed: HashedNames,
    table: &[u32],
    start: usize,
    sought: Sought,
) -> Option<usize>
    requires { (start + most_probes ≤ length table.now)
        × ((k : ℕ) → get_or table.now k 0 ≤ count hashed.names) }
    ensures probed { Probed (named hashed.entry.names) table.now sought.entry.name.now start (unwrap_or result most_probes) }
    ensures near { IfSome result (λ d. d < most_probes) }
{
    for d in 0..MOST_PROBES {
        let entry = table[start + d];
        if entry == 0 || hashed.has_name(entry - 1, sought) {
            return Some(d);
        }
    }
    None
}

// Numbers the name of the card, where the search for it does not go too far.
fn number_card(
    hashed: HashedNames,
    table: &mut [u32],
    numbers: &mut [u32],
    card: u32,
) -> Result<(), Crowded>
    requires { (card < count hashed.names)
        × (count hashed.names ≤ card_capacity)
        × (most_probes < length table.old)
        × (length table.old ≤ 65536)
        × (card < length numbers.old)
        × Held (named hashed.names) (length table.old - most_probes) card table.old }
    ensures { Turned (named hashed.entry.names) card (is_ok result) table.new numbers.old numbers.new }
{
    let sought = hashed.sought(card);
    let start = home_of(sought.hash, table.len() - MOST_PROBES);
    let d = probe(hashed, table, start, sought).ok_or(Crowded)?;
    if table[start + d] == 0 {
        table[start + d] = card + 1;
    }
    numbers[card as usize] = table[start + d] - 1;
    Ok(())
}

// Numbers all names, unless the search for one goes too far.
pub fn number_by_table(
    hashed: HashedNames,
    table: &mut [u32],
    numbers: &mut [u32],
) -> Result<(), Crowded>
    requires { (count hashed.names ≤ card_capacity)
        × (most_probes < length table.old)
        × (length table.old ≤ 65536)
        × (count hashed.names ≤ length numbers.old) }
    ensures made { is_ok result ≡ true → ByTable (named hashed.entry.names) (count hashed.entry.names)
        table.new numbers.old numbers.new }
    ensures rest { Rest (count hashed.entry.names) numbers.old numbers.new }
{
    table.fill(0);
    for card in 0..hashed.names.count() as u32 {
        number_card(hashed, table, numbers, card)?;
    }
    Ok(())
}
