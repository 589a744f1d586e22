// Opening a store, filing documents into it and turning its switches on: SchemaBuilder's `new`, `add_ast` and its two switches.
#![tactic(auto)]

ghost use Rattle.std.specs.Prelude.{◌≡◌, ◌≤◌, set};
ghost use Rattle.definition.specs.Numbers.{done_answer};
ghost use Rattle.definition.specs.Outcomes.{open_store, add_ast, turned, adopt_orphan_extensions, ignore_builtin_redefinitions};

use ast_check::Document;
use definition::layout::{ADOPT_SWITCH, IGNORE_SWITCH, TEXT_CAPACITY, WORDS_CAPACITY};
use definition::refusal::{Refusal, Refused};

pub mod copying;
pub mod filing;

// Files document 0 with both switches off, over whatever the store held.
#[tactic(auto, using(crate::proofs::Allowed::opening_capacity, crate::proofs::Allowed::opens, crate::proofs::Entries::open_short_text, crate::proofs::Entries::open_short_words, crate::proofs::Entries::open_done))]
pub fn open(text: &mut [u8], words: &mut [u32], built_ins: Document) -> Result<(), Refused>
    ensures { record { answer = done_answer result; text = text.new; words = words.new }
        ≡ open_store text.old words.old built_ins.entry.text.now built_ins.entry.cards.now }
{
    if text.len() < TEXT_CAPACITY || words.len() < WORDS_CAPACITY {
        return Err(Refusal::StoreTooShort.into());
    }
    built_ins.check()?;
    store_built_in::check_built_in(built_ins)?;
    store_filing_check::check_capacity(0, 0, built_ins)?;
    crate::filing::file_built_in(text, words, built_ins);
    Ok(())
}

// Files a document after those held.
#[tactic(auto, using(ast_check::proofs::Told::answer_of, store_check::proofs::Checked::refused_number, store_check::proofs::Checked::refused_store, crate::proofs::Entries::add_unsound))]
pub fn add_ast(text: &mut [u8], words: &mut [u32], lent: Document) -> Result<(), Refused>
    ensures { record { answer = done_answer result; text = text.new; words = words.new }
        ≡ add_ast text.old words.old lent.entry.text.now lent.entry.cards.now }
{
    store_check::check_store(text, words)?;
    store_filing_check::check_filing(words, lent)?;
    crate::filing::file(text, words, lent);
    Ok(())
}

// Turns a switch on, by the number of its word.
#[tactic(auto, using(ast_check::proofs::Told::answer_of, store_check::proofs::Checked::sound_store, store_check::proofs::Checked::refused_number, store_check::proofs::Checked::refused_store, crate::proofs::Entries::turned_unsound, crate::proofs::Entries::turned_done))]
fn turn_on(text: &[u8], words: &mut [u32], switch: usize) -> Result<(), Refused>
    requires { switch ≤ 2 }
    ensures { record { answer = done_answer result; text = text.now; words = words.new }
        ≡ turned text.now words.old (set words.old switch 1) }
{
    store_check::check_store(text, words)?;
    words[switch] = 1;
    Ok(())
}

// Extensions without a definition are adopted from now on.
#[tactic(auto, unfolding(definition::specs::Store::adopting_words, definition::specs::Outcomes::adopt_orphan_extensions))]
pub fn adopt_orphan_extensions(text: &[u8], words: &mut [u32]) -> Result<(), Refused>
    ensures { record { answer = done_answer result; text = text.now; words = words.new }
        ≡ adopt_orphan_extensions text.now words.old }
{
    turn_on(text, words, ADOPT_SWITCH)
}

// Documents filed from now on may define the types of document 0 again.
#[tactic(auto, unfolding(definition::specs::Outcomes::ignore_builtin_redefinitions, definition::specs::Store::ignoring_words))]
pub fn ignore_builtin_redefinitions(text: &[u8], words: &mut [u32]) -> Result<(), Refused>
    ensures { record { answer = done_answer result; text = text.now; words = words.new }
        ≡ ignore_builtin_redefinitions text.now words.old }
{
    turn_on(text, words, IGNORE_SWITCH)
}
