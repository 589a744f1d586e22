// What stands at the beginning of bytes.
use crate::sorts::Sort;

// So many bytes to ignore; a token of a sort with so many bytes; or nothing readable.
#[derive(Clone, Copy)]
pub enum Lexeme {
    Ignored(usize),
    Token(Sort, usize),
    Unreadable,
}
