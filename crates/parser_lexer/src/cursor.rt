// The token ahead of a place of a text.
ghost use Rattle.std.specs.Prelude.{length};
ghost use Rattle.parser_lexer.specs.Places.{Lies};
ghost use Rattle.parser_lexer.specs.Sorts.{sort_number};

use crate::sorts::Sort;

// The text; where the token begins and ends; where the token before it ends; how many cards were listed before it; and the token's sort, which stands last
// so that copies of a cursor are cheap: it is one byte.
#[derive(Clone, Copy)]
pub struct Cursor<'a> {
    pub text: &'a [u8],
    pub begins: usize,
    pub ends: usize,
    pub last: usize,
    pub cards: usize,
    pub sort: Sort,
    // Its places lie in the text, in order; a token has a byte at least; and there are no more cards than bytes read.
    pub ghost lies: { Lies (length text.now) (sort_number sort) begins ends last cards },
}
