// name.rs: the syntax of a Name, and names compared by their bytes.
#![tactic(auto)]

ghost use Rattle.std.specs.Prelude.{◌≡◌};
ghost use Rattle.definition.specs.Names.{is_name_start, is_name_byte, is_name, compare_names, same_name, bytes_at};
ghost use Rattle.name.specs.Parts.{PartAt};
ghost use Rattle.name.specs.Hashes.{hash_of};

use std::cmp::Ordering;

// What the hash so far is multiplied by before the next byte is added.
const HASH_FACTOR: u32 = 16777619;

// A letter or an underscore.
#[tactic(auto, unfolding(definition::specs::Names::is_name_start))]
pub fn is_name_start(b: u8) -> bool
    ensures { result ≡ is_name_start b }
{
    b.is_ascii_alphabetic() || b == b'_'
}

// A letter, an underscore or a digit.
#[tactic(auto, unfolding(definition::specs::Names::is_name_byte))]
pub fn is_name_continue(b: u8) -> bool
    ensures { result ≡ is_name_byte b }
{
    is_name_start(b) || b.is_ascii_digit()
}

#[tactic(auto, using(crate::proofs::Laws::name_empty))]
pub fn is_valid_syntax(name: &[u8]) -> bool
    ensures { result ≡ is_name name.now }
{
    let Some((first, rest)) = name.split_first() else {
        return false;
    };
    is_name_start(*first) && rest.iter().all(|b| is_name_continue(*b))
}

// The part of the text that a span is, as far as the text reaches.
pub fn bytes_at(text: &[u8], at: usize, len: usize) -> &[u8]
    ensures { PartAt text.entry result at len }
{
    let from = at.min(text.len());
    let rest = &text[from..];
    &rest[..len.min(rest.len())]
}

// The only place where the bytes of two names are compared: the first byte in which they differ decides, and a shorter beginning is before.
// Stays: the body is std's `cmp`; the function gives it the definition's word for the order of names.
#[tactic(auto, using(definition::proofs::NamesInOrder::names_by_std))]
pub fn compare(a: &[u8], b: &[u8]) -> Ordering
    ensures { result ≡ compare_names a.now b.now }
{
    a.cmp(b)
}

// Whether two names are the same, by their order.
#[tactic(auto, unfolding(definition::specs::Names::same_name))]
pub fn same(a: &[u8], b: &[u8]) -> bool
    ensures { result ≡ same_name a.now b.now }
{
    compare(a, b).is_eq()
}

// Whether two spans of one text have the same name.
pub fn same_span(text: &[u8], a_at: usize, a_len: usize, b_at: usize, b_len: usize) -> bool
    ensures { result ≡ same_name (bytes_at text.now a_at a_len) (bytes_at text.now b_at b_len) }
{
    same(bytes_at(text, a_at, a_len), bytes_at(text, b_at, b_len))
}

// Whether a span of a text has the name.
pub fn span_is(text: &[u8], at: usize, len: usize, name: &[u8]) -> bool
    ensures { result ≡ same_name (bytes_at text.now at len) name.now }
{
    same(bytes_at(text, at, len), name)
}

// A number made of a name's bytes: where two differ, so do the names, and no byte need be compared.
pub fn hash_of(name: &[u8]) -> u32
    ensures { result ≡ hash_of name.now }
{
    let mut hash: u32 = 0;
    for byte in name {
        hash = hash
            .wrapping_mul(HASH_FACTOR)
            .wrapping_add(u32::from(*byte));
    }
    hash
}
