// What is ignored between tokens and has more than a byte: comments.
ghost use Rattle.std.specs.Prelude.{◌≡◌, ◌<◌, length};
ghost use Rattle.definition.specs.Lexical as lexical;
ghost use Rattle.parser_lexer.specs.Comments.{CommentPart};

use crate::characters::{CARRIAGE_RETURN, LAST_OF_ONE, LINE_FEED, SPACE, character};

// Whether a byte is a character by itself that no line ends with; so is DEL.
fn is_plain(b: u8) -> bool
    ensures { result ≡ lexical.between 32 127 b }
{
    matches!(b, SPACE..=LAST_OF_ONE)
}

// How many bytes go on a comment: one character; none where the line ends, or where no character stands. Most are ASCII, and are told first.
fn taken(bytes: &[u8]) -> Option<usize>
    requires { 0 < length bytes.now }
    ensures { CommentPart bytes.now result }
{
    if is_plain(bytes[0]) {
        return Some(1);
    }
    match bytes[0] {
        LINE_FEED | CARRIAGE_RETURN => None,
        _ => character(bytes),
    }
}

// How many bytes a comment has whose `#` has been read.
pub fn comment(bytes: &[u8]) -> usize
    ensures { result ≡ lexical.comment 0 bytes.now }
{
    let mut rest = bytes;
    while let [_, ..] = rest {
        let Some(size) = taken(rest) else {
            break;
        };
        rest = &rest[size..];
    }
    bytes.len() - rest.len()
}
