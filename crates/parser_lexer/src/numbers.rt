// Numbers: IntValue and FloatValue (2.9.1, 2.9.2).
ghost use Rattle.std.specs.Prelude.{◌≡◌, ◌||◌, ◌≤◌, eqb, length, get_or};
ghost use Rattle.definition.specs.Lists.{choose};
ghost use Rattle.definition.specs.Lexical as lexical;
ghost use Rattle.parser_lexer.specs.Lexemes.{told};
ghost use Rattle.parser_lexer.specs.Measures.{counted, measured, numbered};
ghost use Rattle.parser_lexer.specs.Numbers.{is_attached, number_from};

use crate::characters::byte_at;
use crate::lexeme::Lexeme;
use crate::sorts::Sort;

// How many digits the bytes begin with, where they begin with one.
fn digits(bytes: &[u8]) -> Option<usize>
    ensures { result ≡ counted (lexical.run lexical.is_digit bytes.now) }
{
    match bytes.iter().take_while(|b| b.is_ascii_digit()).count() {
        0 => None,
        n => Some(n),
    }
}

// A minus or nothing.
fn sign(bytes: &[u8]) -> usize
    ensures { result ≡ choose (eqb (get_or bytes.now 0 0) 45) 1 0 }
{
    usize::from(byte_at(bytes, 0) == b'-')
}

// The digits of an integer part: 0 stands alone.
fn integer(bytes: &[u8]) -> Option<usize>
    ensures { result ≡ counted (lexical.integer bytes.now) }
{
    if byte_at(bytes, 0) == b'0' {
        Some(1)
    } else {
        digits(bytes)
    }
}

// A part that is begun by a mark of so many bytes: it must have a digit.
fn begun(bytes: &[u8], mark: usize) -> Option<usize>
    requires { mark ≤ length bytes.now }
    ensures { measured result ≡ lexical.begun mark bytes.now }
{
    let size = digits(&bytes[mark..])?;
    Some(mark + size)
}

fn fraction(bytes: &[u8]) -> Option<usize>
    ensures { measured result ≡ lexical.fraction bytes.now }
{
    if byte_at(bytes, 0) == b'.' {
        begun(bytes, 1)
    } else {
        Some(0)
    }
}

// Whether one of two bytes stands at a place.
fn is_either(bytes: &[u8], i: usize, x: u8, y: u8) -> bool
    ensures { result ≡ (eqb (get_or bytes.now i 0) x || eqb (get_or bytes.now i 0) y) }
{
    let b = byte_at(bytes, i);
    b == x || b == y
}

fn exponent(bytes: &[u8]) -> Option<usize>
    ensures { measured result ≡ lexical.exponent bytes.now }
{
    if !is_either(bytes, 0, b'e', b'E') {
        Some(0)
    } else if is_either(bytes, 1, b'+', b'-') {
        begun(bytes, 2)
    } else {
        begun(bytes, 1)
    }
}

// What may not follow a number: a digit, a point or a NameStart.
#[tactic(auto, unfolding(definition::specs::Lexical::is_digit))]
fn is_attached(b: u8) -> bool
    ensures { result ≡ is_attached b }
{
    matches!(b, b'0'..=b'9' | b'.') || name::is_name_start(b)
}

// A number whose sign and digits are so many bytes: its sort and all its bytes. A fraction or an exponent makes it a float.
fn number_from(bytes: &[u8], whole: usize) -> Option<(Sort, usize)>
    requires { whole ≤ length bytes.now }
    ensures { numbered result ≡ number_from whole bytes.now }
{
    let fraction = fraction(&bytes[whole..])?;
    let exponent = exponent(&bytes[whole + fraction..])?;
    let size = whole + fraction + exponent;
    if is_attached(byte_at(bytes, size)) {
        return None;
    }
    let sort = if fraction + exponent == 0 {
        Sort::Int
    } else {
        Sort::Float
    };
    Some((sort, size))
}

// The number that the bytes begin with.
pub fn number(bytes: &[u8]) -> Lexeme
    ensures { told result ≡ lexical.number bytes.now }
{
    let sign = sign(bytes);
    let Some(whole) = integer(&bytes[sign..]) else {
        return Lexeme::Unreadable;
    };
    match number_from(bytes, sign + whole) {
        Some((sort, size)) => Lexeme::Token(sort, size),
        None => Lexeme::Unreadable,
    }
}
