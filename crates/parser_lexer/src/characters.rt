// The characters of a text: SourceCharacter (2.1.1) in well-formed UTF-8, so no surrogate and nothing overlong.
ghost use Rattle.std.specs.Prelude.{◌≡◌, [], ◌∷◌, ◌&&◌, ◌<◌, eqb, length, get_or};
ghost use Rattle.definition.specs.Lexical as lexical;
ghost use Rattle.parser_lexer.specs.Characters.{second_of};
ghost use Rattle.parser_lexer.specs.Measures.{counted};

// What may stand below the space.
pub const TAB: u8 = 9;

pub const LINE_FEED: u8 = 10;

pub const CARRIAGE_RETURN: u8 = 13;

// The characters of one byte.
pub const SPACE: u8 = 32;

pub const LAST_OF_ONE: u8 = 127;

// The first bytes of the characters of two and of three bytes; they follow on one another.
pub const FIRST_OF_TWO: u8 = 194;

pub const LAST_OF_TWO: u8 = 223;

pub const FIRST_OF_THREE: u8 = 224;

pub const LAST_OF_THREE: u8 = 239;

// The bytes that go on a character.
pub const FIRST_ON: u8 = 128;

pub const LAST_ON: u8 = 191;

// After the first byte 224 a second one below 160 would be overlong; after 237 one above 159 would be a surrogate.
pub const NOT_OVERLONG: u8 = 160;

pub const BEFORE_SURROGATES: u8 = 237;

pub const NO_SURROGATE: u8 = 159;

// The byte at a place, 0 past the end.
pub fn byte_at(bytes: &[u8], i: usize) -> u8
    ensures { result ≡ get_or bytes.now i 0 }
{
    bytes.get(i).copied().unwrap_or(0)
}

// Whether two bytes follow the first.
pub fn is_followed(bytes: &[u8], second: u8, third: u8) -> bool
    ensures { result ≡ (eqb (get_or bytes.now 1 0) second && eqb (get_or bytes.now 2 0) third) }
{
    byte_at(bytes, 1) == second && byte_at(bytes, 2) == third
}

// Whether the byte goes on a character.
fn continues(b: u8) -> bool
    ensures { result ≡ lexical.continues b }
{
    matches!(b, FIRST_ON..=LAST_ON)
}

// Whether the byte may follow the first one of a character of three bytes.
fn is_second(b: u8, c: u8) -> bool
    ensures { result ≡ second_of b c }
{
    match b {
        FIRST_OF_THREE => matches!(c, NOT_OVERLONG..=LAST_ON),
        BEFORE_SURROGATES => matches!(c, FIRST_ON..=NO_SURROGATE),
        _ => continues(c),
    }
}

// How many bytes the character has that three bytes begin with, where the first is not ASCII.
fn wide(b: u8, c: u8, d: u8) -> Option<usize>
    requires { 127 < b }
    ensures { result ≡ counted (lexical.character (b ∷ c ∷ d ∷ [])) }
{
    match b {
        FIRST_OF_TWO..=LAST_OF_TWO if continues(c) => Some(2),
        FIRST_OF_THREE..=LAST_OF_THREE if is_second(b, c) && continues(d) => Some(3),
        _ => None,
    }
}

// Stays: that there is a byte is a clause of each function that reads the first; a type for bytes that are not empty would be made and opened at each call.
// How many bytes the character has that the bytes begin with, where they begin with one. Those of more than a byte are told first: a string and a comment tell
// most of the others themselves.
pub fn character(bytes: &[u8]) -> Option<usize>
    requires { 0 < length bytes.now }
    ensures { result ≡ counted (lexical.character bytes.now) }
{
    let first = bytes[0];
    if LAST_OF_ONE < first {
        return wide(first, byte_at(bytes, 1), byte_at(bytes, 2));
    }
    match first {
        TAB | LINE_FEED | CARRIAGE_RETURN | SPACE..=LAST_OF_ONE => Some(1),
        _ => None,
    }
}
