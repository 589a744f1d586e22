// Lists a folder's collection: files its documents in a store of local arrays, draws the catalogue and prints it.
#![tactic(auto)]

mod failure;
mod switches;

use definition::layout::{ERRORS_CAPACITY, ROWS_CAPACITY, TEXT_CAPACITY, WORDS_CAPACITY};
use failure::Failure;
use program_io::input::documents::Document;
use program_io::output::shown::Listing;
use std::alloc::{AllocError, Global};
use std::rt::Files;
use switches::{Switches, read_switches};

fn main(rt: HostRuntime) {
    if let Err(why) = run(&rt) {
        let _ = eprintln!(rt; "{why}");
    }
}

// Prints the catalogue or, where a call is refused, the refusal. Either is one write.
fn run(rt: &(impl Files + AllocGlobal + Print)) -> Result<(), Failure> {
    let switches = read_switches(rt)?;
    let mut text = [0; TEXT_CAPACITY];
    let mut words = [0; WORDS_CAPACITY];
    let shown = match file_documents(rt, switches, &mut text, &mut words) {
        Ok(()) => draw(rt.alloc(), &text, &words)?,
        Err(Failure::Refused(line)) => line.to_string(rt.alloc())?,
        Err(why) => return Err(why),
    };
    rt.write_all(shown.as_bytes()).map_err(Failure::Unwritten)
}

// Files document after document. Document 0 opens the store, and behind it the switches are turned on.
fn file_documents(
    rt: &(impl Files + AllocGlobal),
    switches: Switches,
    text: &mut [u8],
    words: &mut [u32],
) -> Result<(), Failure> {
    for n in 0..usize::MAX {
        let Some(document) = Document::read(rt, "", n)? else {
            break;
        };
        if n == 0 {
            api::open(text, words, &document.text, &document.cards)?;
            turn_on(switches, text, words)?;
        } else {
            api::add_ast(text, words, &document.text, &document.cards)?;
        }
    }
    Ok(())
}

fn turn_on(switches: Switches, text: &[u8], words: &mut [u32]) -> Result<(), Failure> {
    if switches.adopt {
        api::adopt_orphan_extensions(text, words)?;
    }
    if switches.ignore {
        api::ignore_builtin_redefinitions(text, words)?;
    }
    Ok(())
}

fn draw(alloc: Global, text: &[u8], words: &[u32]) -> Result<String, AllocError> {
    let mut rows = [0; ROWS_CAPACITY];
    let mut errors = [0; ERRORS_CAPACITY];
    let drawing = api::build(text, words, &mut rows, &mut errors);
    let listing = Listing {
        drawing,
        rows: &rows,
        errors: &errors,
    };
    listing.to_string(alloc)
}
