// How the readers here end an item: as any item ends, and with a cursor behind it.
ghost use Rattle.std.specs.Prelude.{◌≡◌, ◌<◌};
ghost use Rattle.definition.specs.Refusals.{card_capacity};
ghost use Rattle.parser_items.specs.Lists.{Short, put_card, item_card, OneMore};

use crate::cards::{self, Cards};
use parser_lexer::Cursor;

// An item of a kind, of one token or more, ends before the token ahead of `after`, and its card is written. The three cursors are of one text.
// Returns the cursor behind it, with one card more.
pub fn end_item<'a>(
    cards: &mut Cards,
    kind: u32,
    first: Cursor<'a>,
    name: Cursor<'a>,
    after: Cursor<'a>,
) -> Cursor<'a>
    requires { Short after ×
        (first.text.now ≡ after.text.now) ×
        (name.text.now ≡ after.text.now) ×
        (first.last < after.last) }
    ensures { (cards.new ≡ put_card cards.old card_capacity first.entry.cards (item_card kind first.entry name.entry after.entry.last)) ×
        OneMore first.entry after.entry result }
{
    let end = cards::end_item(cards, kind, first, name, after);
    // Stays: field by field, since Rattle takes no `..after` in a literal of a struct with a ghost field.
    Cursor {
        text: after.text,
        sort: end.sort,
        begins: end.begins,
        ends: end.ends,
        last: end.last,
        cards: end.cards,
    }
}
