// The calls that write the store: opening, filing, turning a switch on. What is expected of one stands in its line.
use crate::held::hold_answer;
use definition::refusal::Refused;
use program_io::input::documents::{Document, DocumentError};
use replay_calls::command::{Filing, Switch};
use replay_calls::failure::Failure;
use replay_calls::line::Line;
use replay_calls::table::Table;
use std::rt::Files;

// `open D N C` and `add_ast D N C`
pub fn run_filing(
    rt: &(impl Files + AllocGlobal + Eprint),
    folder: &str,
    filing: Filing,
    line: &Line,
    table: &mut Table,
) -> Result<(), Failure> {
    let [d, number, card] = line.numbers::<3>(1)?;
    let document = read_document(rt, folder, d)?;
    let old = table.store;
    let answer = file(filing, &document, table);
    hold_answer(answer.into(), number, card)?;
    if answer.is_err() && table.store != old {
        return Err(Failure::Changed);
    }
    Ok(())
}

fn file(filing: Filing, document: &Document, table: &mut Table) -> Result<(), Refused> {
    let (t, w) = (table.lent.text, table.lent.words);
    let text = &mut table.store.text[..];
    let words = &mut table.store.words[..];
    let (text, words) = (&mut text[..t], &mut words[..w]);
    match filing {
        Filing::Open => api::open(text, words, &document.text, &document.cards),
        Filing::AddAst => api::add_ast(text, words, &document.text, &document.cards),
    }
}

fn read_document(
    rt: &(impl Files + AllocGlobal + Eprint),
    folder: &str,
    d: usize,
) -> Result<Document, Failure> {
    match Document::read(rt, folder, d) {
        Ok(document) => document.ok_or(Failure::NoFile),
        Err(DocumentError::Unread(unread)) => {
            let _ = eprintln!(rt; "{unread}");
            Err(Failure::NoFile)
        }
        Err(DocumentError::Uneven) => Err(Failure::NoFile),
    }
}

// `adopt_orphan_extensions N C` and `ignore_builtin_redefinitions N C`
pub fn run_switch(switch: Switch, line: &Line, table: &mut Table) -> Result<(), Failure> {
    let [number, card] = line.numbers::<2>(1)?;
    let old = table.store;
    let answer = turn_on(switch, table);
    hold_answer(answer.into(), number, card)?;
    if answer.is_err() && table.store != old {
        return Err(Failure::Changed);
    }
    Ok(())
}

fn turn_on(switch: Switch, table: &mut Table) -> Result<(), Refused> {
    let w = table.lent.words;
    let text = &table.store.text[..table.lent.text];
    let words = &mut table.store.words[..];
    let words = &mut words[..w];
    match switch {
        Switch::AdoptOrphanExtensions => api::adopt_orphan_extensions(text, words),
        Switch::IgnoreBuiltinRedefinitions => api::ignore_builtin_redefinitions(text, words),
    }
}
