// The lexer: what stands at a place of a text, read once and carried along by value. Specification of October 2021, 2.1 and the values of 2.9.
#![tactic(auto)]

ghost use Rattle.std.specs.Prelude.{◌≤◌, length};
ghost use Rattle.parser_lexer.specs.Ahead.{Next};

pub mod characters;
pub mod cursor;
pub mod ignored;
pub mod lexeme;
pub mod numbers;
pub mod sorts;
pub mod strings;
pub mod tokens;
pub mod words;

use characters::SPACE;
pub use cursor::Cursor;
use lexeme::Lexeme;
use sorts::Sort;

// The token ahead of `at`, where so many cards were listed before it. Most of what is ignored are spaces, so those are passed over first.
// Stays: the place is counted on by hand, since each step is as long as what it passes over, and the place is what the cursor tells.
pub fn next_token(text: &[u8], at: usize, cards: usize) -> Cursor
    requires { (at ≤ length text.now) ×
        (cards ≤ at) }
    ensures { Next text.now at cards result }
{
    let mut i = at;
    let (sort, size) = loop {
        if text.len() <= i {
            break (Sort::EndOfText, 0);
        }
        if text[i] == SPACE {
            i += 1;
            continue;
        }
        match tokens::lexeme(&text[i..]) {
            Lexeme::Ignored(size) => i += size,
            Lexeme::Token(sort, size) => break (sort, size),
            Lexeme::Unreadable => break (Sort::Unreadable, 0),
        }
    };
    Cursor {
        text,
        sort,
        begins: i,
        ends: i + size,
        last: at,
        cards,
    }
}

impl<'a> Cursor<'a> {
    // The token after the one ahead.
    pub fn next(self) -> Cursor<'a>
        ensures { Next self.entry.text.now self.entry.ends self.entry.cards result }
    {
        next_token(self.text, self.ends, self.cards)
    }
}
