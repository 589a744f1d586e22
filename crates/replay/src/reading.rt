// Reading a text into cards, and what is expected of it. It goes over no store: the text is a part of a document's file, since the texts of a case share files.
use crate::case::FILE_CAPACITY;
use crate::held::{LIST_CAPACITY, hold_answer, hold_list, read_told, unwritten};
use program_io::output::file_name::FileName;
use replay_calls::failure::Failure;
use replay_calls::line::Line;
use std::rt::Files;

// `parse D A B L N C W1 W2 ..`: the document whose file has the text, where the text begins and ends in it, how many words are lent, and the answer.
pub fn run_parse(
    rt: &(impl Files + AllocGlobal + Eprint),
    folder: &str,
    line: &Line,
) -> Result<(), Failure> {
    let [d, start, end, l, number, card] = line.first_numbers::<6>(1)?;
    let name = FileName {
        folder,
        stem: "d",
        number: d,
        ending: ".txt",
    };
    let file = read_told(rt, name, FILE_CAPACITY)?;
    let text = file.get(start..end).ok_or(Failure::Malformed)?;
    let mut list = unwritten::<LIST_CAPACITY>();
    let lent = list.get_mut(..l).ok_or(Failure::Malformed)?;
    hold_answer(api::parse(text, lent).into(), number, card)?;
    hold_list(line, 7, &list)
}
