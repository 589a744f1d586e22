// What came, held against what is expected.
ghost use Rattle.std.specs.Prelude.{◌≡◌, OnOk};
ghost use Rattle.definition.specs.Answers.{field_refusal, field_number, field_meta, field_card};
ghost use Rattle.definition.specs.Numbers.{field_lookup};

use crate::case::FILE_CAPACITY;
use api::answers::FieldAnswer;
use definition::build_error::ERROR_NUMBERS;
use definition::layout::READ_CARDS_CAPACITY;
use definition::{Answer, Drawing, FieldFound, FieldLookupError, Tallies};
use program_io::input::files::{Unread, read_file};
use program_io::output::file_name::FileName;
use program_io::output::shown::Listing;
use replay_calls::failure::Failure;
use replay_calls::line::Line;
use std::rt::Files;

// The words that a lookup or a reading may be lent to fill: some more than the reading asks for, which asks for the most.
pub const LIST_CAPACITY: usize = READ_CARDS_CAPACITY + 16;

// What stands in errors and lists before they are lent.
const UNWRITTEN: u32 = 2863311530;

pub fn unwritten<const N: usize>() -> [u32; N] {
    [UNWRITTEN; N]
}

// Whether nothing was written from a place on.
pub fn stays_unwritten(list: &[u32], from: usize) -> bool {
    list.iter().skip(from).all(|word| *word == UNWRITTEN)
}

// Reads a file; of one that can't be read it is told why.
pub fn read_told(
    rt: &(impl Files + AllocGlobal + Eprint),
    name: FileName,
    most: usize,
) -> Result<Vec<u8>, Failure> {
    match read_named(rt, name, most) {
        Ok(bytes) => Ok(bytes),
        Err(unread) => {
            let _ = eprintln!(rt; "{unread}");
            Err(Failure::NoFile)
        }
    }
}

fn read_named(
    rt: &(impl Files + AllocGlobal),
    name: FileName,
    most: usize,
) -> Result<Vec<u8>, Unread> {
    read_file(rt, name.to_string(rt.alloc())?, most)
}

// Holds an answer against the number and the card that are expected.
pub fn hold_answer(answer: Answer, number: usize, card: usize) -> Result<(), Failure>
    ensures number { OnOk result (answer.number ≡ number) }
    ensures card { OnOk result (answer.card ≡ card) }
{
    let came = answer.number as usize;
    if came != number || answer.card != card {
        return Err(Failure::Answered {
            number: came,
            card: answer.card,
        });
    }
    Ok(())
}

// Holds a field's answer against its four numbers.
pub fn hold_field(
    answer: Result<FieldFound, FieldLookupError>,
    refusal: usize,
    kind: usize,
    meta: usize,
    card: usize,
) -> Result<(), Failure>
    ensures refusal { OnOk result (field_refusal (field_lookup answer) ≡ refusal) }
    ensures kind { OnOk result (field_number (field_lookup answer) ≡ kind) }
    ensures meta { OnOk result (field_meta (field_lookup answer) ≡ meta) }
    ensures card { OnOk result (field_card (field_lookup answer) ≡ card) }
{
    let came = FieldAnswer::from(answer);
    let came_refusal = came.refusal as usize;
    let came_kind = came.number as usize;
    let came_meta = came.meta as usize;
    let came_card = came.card as usize;
    if came_refusal != refusal || came_kind != kind || came_meta != meta || came_card != card {
        return Err(Failure::Field {
            refusal: came_refusal,
            kind: came_kind,
            meta: came_meta,
            card: came_card,
        });
    }
    Ok(())
}

// Holds a name: `-` where there are no bytes.
pub fn hold_name(name: &[u8], expected: &[u8]) -> Result<(), Failure> {
    let came = if name.is_empty() {
        b"-".as_slice()
    } else {
        name
    };
    if came != expected {
        return Err(Failure::Other);
    }
    Ok(())
}

// The words of the line from word `from` on are those written, and all past them stayed.
pub fn hold_list(line: &Line, from: usize, list: &[u32]) -> Result<(), Failure> {
    let count = line
        .count_words()
        .checked_sub(from)
        .ok_or(Failure::Malformed)?;
    let written = list.get(..count).ok_or(Failure::Malformed)?;
    if !line.has(from, written) {
        return Err(Failure::Other);
    }
    if !stays_unwritten(list, count) {
        return Err(Failure::Changed);
    }
    Ok(())
}

// Holds a drawing against the number that is expected and, where it is not refused, against a listing.
pub fn hold_listing(
    rt: &(impl Files + AllocGlobal + Eprint),
    folder: &str,
    number: usize,
    k: usize,
    listing: &Listing,
) -> Result<(), Failure> {
    let came = Drawing::from(listing.drawing).number as usize;
    if came != number {
        return Err(Failure::Answered {
            number: came,
            card: 0,
        });
    }
    if came != 0 {
        return Ok(());
    }
    let name = FileName {
        folder,
        stem: "listing",
        number: k,
        ending: "",
    };
    let expected = read_told(rt, name, FILE_CAPACITY)?;
    let shown = listing.to_string(rt.alloc()).map_err(|_| Failure::NoFile)?;
    if shown.as_bytes() != expected.as_slice() {
        return Err(Failure::Other);
    }
    Ok(())
}

// Holds the tallies of the last drawing: `tallies T1 .. T16 TOTAL`.
pub fn hold_tallies(line: &Line, tallies: &Tallies) -> Result<(), Failure> {
    if line.count_words() != ERROR_NUMBERS + 2 {
        return Err(Failure::Malformed);
    }
    if !line.has(1, &tallies.counts) || !line.has(ERROR_NUMBERS + 1, &[tallies.total]) {
        return Err(Failure::Other);
    }
    Ok(())
}
