// Strings and block strings: StringValue (2.9.4).
ghost use Rattle.std.specs.Prelude.{◌≡◌, false, ◌≤◌, ◌<◌, eqb, length, get_or, drop};
ghost use Rattle.definition.specs.Lexical as lexical;
ghost use Rattle.parser_lexer.specs.Lexemes.{told};
ghost use Rattle.parser_lexer.specs.Measures.{measured, counted};
ghost use Rattle.parser_lexer.specs.Strings.{is_simple, is_code, later, PlainPart, BlockPart, string_token};

use crate::characters::{CARRIAGE_RETURN, LAST_OF_ONE, LINE_FEED, SPACE, byte_at, character};
use crate::lexeme::Lexeme;
use crate::sorts::Sort;

// Whether a byte is a hexadecimal digit.
fn is_hex(b: u8) -> bool
    ensures { result ≡ lexical.is_hex b }
{
    b.is_ascii_hexdigit()
}

// Whether four hexadecimal digits follow the first byte.
fn is_code(bytes: &[u8]) -> bool
    ensures { result ≡ is_code bytes.now }
{
    let [_, first, second, third, fourth, ..] = bytes else {
        return false;
    };
    is_hex(*first) && is_hex(*second) && is_hex(*third) && is_hex(*fourth)
}

// How many bytes an escape has after its backslash, where there is one.
fn escape(bytes: &[u8]) -> Option<usize>
    ensures { result ≡ counted (lexical.escape bytes.now) }
{
    match byte_at(bytes, 0) {
        b'"' | b'\\' | b'/' | b'b' | b'f' | b'n' | b'r' | b't' => Some(1),
        b'u' if is_code(bytes) => Some(5),
        _ => None,
    }
}

// Whether a byte of a string stands for itself alone, whatever comes after it.
fn is_simple(b: u8) -> bool
    ensures { result ≡ is_simple b }
{
    b != b'\\' && b != b'"' && matches!(b, SPACE..=LAST_OF_ONE)
}

// How many bytes go on a string where it is not closed, and not broken. Most stand for themselves, and are told first, each by itself: many rows are short.
fn plain_part(bytes: &[u8]) -> Option<usize>
    requires { (0 < length bytes.now) ×
        (eqb (get_or bytes.now 0 0) 34 ≡ false) }
    ensures { PlainPart bytes.now result }
{
    if is_simple(bytes[0]) {
        return Some(1);
    }
    match bytes[0] {
        b'\\' => {
            let size = escape(&bytes[1..])?;
            Some(1 + size)
        }
        LINE_FEED | CARRIAGE_RETURN => None,
        _ => character(bytes),
    }
}

// How many bytes the string has whose opening quote the bytes begin with.
fn plain_string(bytes: &[u8]) -> Option<usize>
    requires { 0 < length bytes.now }
    ensures { measured result ≡ later 1 (lexical.plain 0 (drop 1 bytes.now)) }
{
    let mut rest = &bytes[1..];
    while let [first, ..] = rest {
        if *first == b'"' {
            return Some(bytes.len() - rest.len() + 1);
        }
        let size = plain_part(rest)?;
        rest = &rest[size..];
    }
    None
}

// Whether the bytes begin with three quotes.
fn is_tripled(bytes: &[u8]) -> bool
    ensures { result ≡ lexical.tripled bytes.now }
{
    byte_at(bytes, 0) == b'"' && matches!(bytes, [_, b'"', b'"', ..])
}

// How many bytes go on a block string where it is not closed, and not broken.
fn block_part(bytes: &[u8]) -> Option<usize>
    requires { (0 < length bytes.now) ×
        (lexical.tripled bytes.now ≡ false) }
    ensures { BlockPart bytes.now result }
{
    match bytes[0] {
        b'\\' if is_tripled(&bytes[1..]) => Some(4),
        SPACE..=LAST_OF_ONE => Some(1),
        _ => character(bytes),
    }
}

// How many bytes the block string has whose three opening quotes the bytes begin with.
fn block_string(bytes: &[u8]) -> Option<usize>
    requires { 3 ≤ length bytes.now }
    ensures { measured result ≡ later 3 (lexical.block 0 (drop 3 bytes.now)) }
{
    let mut rest = &bytes[3..];
    while let [_, ..] = rest {
        if is_tripled(rest) {
            return Some(bytes.len() - rest.len() + 3);
        }
        let size = block_part(rest)?;
        rest = &rest[size..];
    }
    None
}

// A string of so many bytes, or nothing readable.
fn token(size: Option<usize>) -> Lexeme
    ensures { told result ≡ string_token (measured size) }
{
    match size {
        Some(size) => Lexeme::Token(Sort::String, size),
        None => Lexeme::Unreadable,
    }
}

// The string whose first quote the bytes begin with.
pub fn string(bytes: &[u8]) -> Lexeme
    requires { 0 < length bytes.now }
    ensures { told result ≡ lexical.string bytes.now }
{
    if is_tripled(bytes) {
        token(block_string(bytes))
    } else {
        token(plain_string(bytes))
    }
}
