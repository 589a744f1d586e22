// What the entries refuse before they draw or look up, in the fixed order.
ghost use Rattle.std.specs.Prelude.{◌≡◌, MatchResult};
ghost use Rattle.definition.specs.Numbers.{refusal_number, told_number};
ghost use Rattle.api.specs.LookupRefusal.{lookup_refusal, list_refusal};
ghost use Rattle.api.specs.BuildRefusal.{build_refusal};

use definition::layout::{ERRORS_CAPACITY, ROWS_CAPACITY};
use definition::refusal::Refusal;
use schema_rows::Schema;

// 21 and 22, and then 7 where a slice to be drawn into is too short.
#[tactic(auto, using(crate::proofs::LookupRefusal::store_number, crate::proofs::LookupRefusal::numbered), unfolding(crate::specs::BuildRefusal::build_refusal, crate::specs::BuildRefusal::capacity_refusal))]
pub fn check_build(text: &[u8], words: &[u32], rows: usize, errors: usize) -> Result<(), Refusal>
    ensures { told_number result ≡ build_refusal text.now words.now rows errors }
{
    store_check::check_store(text, words)?;
    if rows < ROWS_CAPACITY || errors < ERRORS_CAPACITY {
        return Err(Refusal::SliceTooShort);
    }
    Ok(())
}

// 21, 22 and 26: what every lookup asks first.
// Stays: here the slices that C lends one by one become the one value that the lookups take.
#[tactic(auto, using(crate::proofs::LookupRefusal::store_number, crate::proofs::LookupRefusal::store_refused, crate::proofs::LookupRefusal::rows_told, store_check::proofs::Sound::accepted))]
pub fn checked<'text, 'lent>(
    text: &'text [u8],
    words: &'lent [u32],
    rows: &'lent [u32],
) -> Result<Schema<'text, 'lent>, Refusal>
    ensures { MatchResult result
        (λ schema. (lookup_refusal text.now words.now rows.now ≡ 0)
        × (schema ≡ record { text = text.entry; words = words.entry; rows = rows.entry }))
        (λ refusal. refusal_number refusal ≡ lookup_refusal text.now words.now rows.now) }
{
    let schema = Schema { text, words, rows };
    store_check::check_store(schema.text, schema.words)?;
    schema.check_rows()?;
    Ok(schema)
}

// What a lookup that fills a slice asks first: the same, and then 7, that the slice has the room.
#[tactic(auto, using(crate::proofs::LookupRefusal::numbered), unfolding(crate::specs::LookupRefusal::list_refusal))]
pub fn checked_list<'text, 'lent>(
    text: &'text [u8],
    words: &'lent [u32],
    rows: &'lent [u32],
    capacity: usize,
    len: usize,
) -> Result<Schema<'text, 'lent>, Refusal>
    ensures { MatchResult result
        (λ schema. (list_refusal text.now words.now rows.now capacity len ≡ 0)
        × (schema ≡ record { text = text.entry; words = words.entry; rows = rows.entry }))
        (λ refusal. refusal_number refusal ≡ list_refusal text.now words.now rows.now capacity len) }
{
    let schema = checked(text, words, rows)?;
    if len < capacity {
        return Err(Refusal::SliceTooShort);
    }
    Ok(schema)
}
