// The rows of the directive definitions, of schema/from_ast.rs.
ghost use Rattle.std.specs.Prelude.{◌≡◌, ◌<◌};
ghost use Rattle.std.specs.Option.{unwrap_or};
ghost use Rattle.definition.specs.Answers.{absent};
ghost use Rattle.definition.specs.Store.{cards_used_of};
ghost use Rattle.component.specs.Pushed.{HasRoom, Becomes, pushed};
ghost use Rattle.component.specs.RowsByCards.{Stored, names_directive, standing_at, extend_by_directive, directive_rows_at};

use ast::kinds;
use component::{Row, Rows};
use from_ast_index::Collection;

// Whether a heading is a directive definition with the name of the card.
#[tactic(auto, using(component::proofs::Turns::directive_other, component::proofs::Turns::directive_is))]
fn names_directive(collection: &Collection, card: u32, other: u32) -> bool
    requires card_stored { card < cards_used_of collection.now.words.now }
    requires other_stored { other < cards_used_of collection.now.words.now }
    ensures { result ≡ names_directive collection.now.text.now collection.now.words.now card other }
{
    collection.kind(other) == kinds::DIRECTIVE_DEFINITION && collection.same_name(card, other)
}

// The directive definition that stands for a card's name: a built-in one gives way to the next, and any other stays.
#[tactic(auto, using(component::proofs::Turns::standing_other, component::proofs::Turns::standing_found, component::proofs::Turns::standing_next, component::proofs::Turns::standing_end), unfolding(component::specs::RowsByCards::standing_at))]
fn standing_directive(collection: &Collection, headings: &[u32], card: u32) -> Option<u32>
    requires stored { Stored collection.now.words.now headings.now }
    requires card_stored { card < cards_used_of collection.now.words.now }
    ensures { unwrap_or result absent
        ≡ standing_at collection.now.text.now collection.now.words.now headings.now card }
{
    let first = store_reader::documents::built_in_count(collection.words);
    let mut standing = None;
    for other in headings {
        if !names_directive(collection, card, *other) {
            continue;
        }
        standing = Some(*other);
        if first <= *other as usize {
            return standing;
        }
    }
    standing
}

// Pushes the directive definition that stands for a heading's name, unless it stands already: it has the place of the first.
#[tactic(auto, using(component::proofs::Turns::no_directive, component::proofs::Turns::directive_row_lem, component::proofs::Turns::extended_nothing))]
fn directive_definition(
    collection: &Collection,
    headings: &[u32],
    start: usize,
    card: u32,
    rows: &mut Rows,
)
    requires stored { Stored collection.now.words.now headings.now }
    requires card_stored { card < cards_used_of collection.now.words.now }
    requires room { HasRoom rows.old
        (extend_by_directive collection.now.text.now collection.now.words.now headings.now card start) }
    ensures { Becomes rows.old rows.new
        (extend_by_directive collection.now.text.now collection.now.words.now headings.now card
        start) }
{
    if collection.kind(card) != kinds::DIRECTIVE_DEFINITION {
        return;
    }
    let row = Row {
        what: kinds::DIRECTIVE_DEFINITION,
        card: standing_directive(collection, headings, card),
        origin: None,
    };
    rows.extend_sticky(collection, start, row);
}

// Pushes the directive definitions.
pub fn directive_definitions(collection: &Collection, headings: &[u32], rows: &mut Rows)
    requires stored { Stored collection.now.words.now headings.now }
    requires room { HasRoom rows.old
        (pushed (directive_rows_at collection.now.text.now collection.now.words.now headings.now)) }
    ensures { Becomes rows.old rows.new
        (pushed (directive_rows_at collection.now.text.now collection.now.words.now headings.now)) }
{
    let start = rows.used;
    for card in headings {
        directive_definition(collection, headings, start, *card, rows);
    }
}
