// What bytes begin with.
ghost use Rattle.std.specs.Prelude.{◌≡◌, ◌<◌, length};
ghost use Rattle.definition.specs.Lexical as lexical;
ghost use Rattle.parser_lexer.specs.Lexemes.{told};

use crate::characters::is_followed;
use crate::lexeme::Lexeme;
use crate::sorts::Sort;
use crate::{ignored, numbers, strings, words};

// The bytes of the byte order mark, U+FEFF.
const FIRST_OF_MARK: u8 = 239;

const SECOND_OF_MARK: u8 = 187;

const THIRD_OF_MARK: u8 = 191;

// The punctuators of one byte.
fn punctuator(byte: u8) -> Lexeme
    ensures { told result ≡ lexical.punctuator byte lexical.punctuators }
{
    let sort = match byte {
        b':' => Sort::Colon,
        b'!' => Sort::Bang,
        b'{' => Sort::BraceOpens,
        b'}' => Sort::BraceCloses,
        b'(' => Sort::ParenOpens,
        b')' => Sort::ParenCloses,
        b'[' => Sort::BracketOpens,
        b']' => Sort::BracketCloses,
        b'@' => Sort::At,
        b'=' => Sort::Equals,
        b'|' => Sort::Bar,
        b'&' => Sort::Amp,
        b'$' => Sort::Dollar,
        _ => return Lexeme::Unreadable,
    };
    Lexeme::Token(sort, 1)
}

// The token, or what is ignored, that the bytes begin with. Most tokens are names, so those are told first.
pub fn lexeme(bytes: &[u8]) -> Lexeme
    requires { 0 < length bytes.now }
    ensures { told result ≡ lexical.lexeme bytes.now }
{
    let byte = bytes[0];
    if words::begins(byte) {
        let size = words::name_size(bytes);
        return Lexeme::Token(words::word_sort(&bytes[..size]), size);
    }
    match byte {
        b' ' | b'\n' | b',' | b'\r' => Lexeme::Ignored(1),
        // An arm by itself: with the line feed it would be a range, and ranges are told after all single bytes.
        b'\t' => Lexeme::Ignored(1),
        b'"' => strings::string(bytes),
        b'#' => Lexeme::Ignored(1 + ignored::comment(&bytes[1..])),
        // One arm for both: `number` is called once, and so becomes a part of this.
        b'-' | b'0'..=b'9' => numbers::number(bytes),
        b'.' if is_followed(bytes, b'.', b'.') => Lexeme::Token(Sort::Dots, 3),
        FIRST_OF_MARK if is_followed(bytes, SECOND_OF_MARK, THIRD_OF_MARK) => Lexeme::Ignored(3),
        _ => punctuator(byte),
    }
}
