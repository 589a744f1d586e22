// Cards, as they are read.
ghost use Rattle.std.specs.Prelude.{◌≡◌, ◌≤◌};
ghost use Rattle.definition.specs.Refusals.{card_capacity, text_capacity};
ghost use Rattle.ast.specs.Cards.{card_of};
ghost use Rattle.parser_items.specs.Lists.{put_card, item_card, one_more};

use ast::{CARD_ITEM_AT, CARD_ITEM_LEN, CARD_KIND, CARD_NAME_AT, CARD_NAME_LEN, Card};
use definition::layout::{CARD_CAPACITY, CARD_WORDS, READ_CARDS_CAPACITY};
use parser_lexer::Cursor;
use parser_lexer::sorts::Sort;

// The words of as many cards as there is room for.
pub type Cards = [u32; READ_CARDS_CAPACITY];

// Writes card n, where there is room for it. Reading goes on behind the last card that there is room for, and writes no more.
pub fn put_card(cards: &mut Cards, n: usize, card: Card)
    ensures { cards.new ≡ put_card cards.old card_capacity n (card_of card) }
{
    if CARD_CAPACITY <= n {
        return;
    }
    let at = n * CARD_WORDS;
    cards[at + CARD_KIND] = card.kind;
    cards[at + CARD_ITEM_AT] = card.item_at;
    cards[at + CARD_ITEM_LEN] = card.item_len;
    cards[at + CARD_NAME_AT] = card.name_at;
    cards[at + CARD_NAME_LEN] = card.name_len;
}

// What is told behind an item: the token ahead there, where the token before it ends, and how many cards were listed before it.
// It is no cursor: a cursor has no more cards than bytes before it, and an item may end where it begins, or before that.
#[derive(Clone, Copy)]
pub struct ItemEnd {
    pub sort: Sort,
    pub begins: usize,
    pub ends: usize,
    pub last: usize,
    pub cards: usize,
}

// An item of a kind ends before the token ahead of `after`, and its card is written. Its first token stands ahead of `first`, its name ahead of `name`.
// Returns what `after` tells, with one card more than `first`. The three may be of any texts; the card's size is 0 where the item ends before it begins.
pub fn end_item(cards: &mut Cards, kind: u32, first: Cursor, name: Cursor, after: Cursor) -> ItemEnd
    requires { (first.begins ≤ text_capacity) ×
        (name.ends ≤ text_capacity) ×
        (after.last ≤ text_capacity) }
    ensures { (cards.new ≡ put_card cards.old card_capacity first.entry.cards (item_card kind first.entry name.entry after.entry.last)) ×
        (result ≡ one_more first.entry after.entry) }
{
    let card = Card {
        kind,
        item_at: first.begins as u32,
        item_len: after.last.saturating_sub(first.begins) as u32,
        name_at: name.begins as u32,
        name_len: (name.ends - name.begins) as u32,
    };
    put_card(cards, first.cards, card);
    ItemEnd {
        sort: after.sort,
        begins: after.begins,
        ends: after.ends,
        last: after.last,
        cards: first.cards + 1,
    }
}
