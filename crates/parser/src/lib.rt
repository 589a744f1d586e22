// The reader of type-system text: definitions and extensions, each with its heading's card, and a whole text.
#![tactic(auto)]

ghost use Rattle.std.specs.Prelude.{◌≡◌, ◌≤◌, length};
ghost use Rattle.definition.specs.Numbers.{count_answer};
ghost use Rattle.definition.specs.Refusals.{text_capacity};
ghost use Rattle.definition.specs.Outcomes.{ListOutcome, parse};
ghost use Rattle.parser.specs.Headings.{Told};

use crate::definitions::definition;
use definition::layout::{CARD_CAPACITY, CARD_WORDS, READ_CARDS_CAPACITY, TEXT_CAPACITY};
use definition::refusal::{Refusal, Refused};
use parser_items::cards::Cards;
use parser_lexer::next_token;
use parser_lexer::sorts::Sort;
use parser_values::SyntaxError;

pub mod bodies;
pub mod definitions;
pub mod directives;

// Reads a whole text, writes its cards as far as there is room, and answers how many it has.
fn read_document(text: &[u8], cards: &mut Cards) -> Result<usize, SyntaxError>
    requires { length text.now ≤ text_capacity }
    ensures { Told text.now result cards.old cards.new }
{
    let mut c = next_token(text, 0, 0);
    loop {
        let k = definition(c, cards)?;
        if k.sort == Sort::EndOfText {
            return Ok(k.cards);
        }
        c = k;
    }
}

// Reads a text, and fills a slice with its cards. A refused call leaves the slice as it was: the cards are copied into it only once all is accepted.
#[tactic(auto, using(crate::proofs::Outcomes::parse_short, crate::proofs::Outcomes::parse_full), unfolding(definition::specs::Outcomes::unlisted))]
pub fn parse(text: &[u8], cards: &mut [u32]) -> Result<usize, Refused>
    ensures { ◌≡◌ {A = ListOutcome} (record { answer = count_answer result; list = cards.new })
        (parse text.now cards.old) }
{
    if cards.len() < READ_CARDS_CAPACITY {
        return Err(Refusal::CardSliceTooShort.into());
    }
    if TEXT_CAPACITY < text.len() {
        return Err(Refusal::TextFull.into());
    }
    let mut words = [0u32; READ_CARDS_CAPACITY];
    let count = read_document(text, &mut words)?;
    if CARD_CAPACITY < count {
        return Err(Refusal::CardsFull.into());
    }
    let read = count * CARD_WORDS;
    cards[..read].copy_from_slice(&words[..read]);
    Ok(count)
}
