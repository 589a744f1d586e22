// A case: its file of calls, and the lines of it, one after another, over its table.
ghost use Rattle.std.specs.Prelude.{IfOk, IfSome, length};
ghost use Rattle.std.specs.Iterator.{IsFinite, size};
ghost use Rattle.replay.specs.Counted.{Few, calls_capacity};

use crate::builds::run_build;
use crate::filing::{run_filing, run_switch};
use crate::held::hold_tallies;
use crate::lookups::run_lookup;
use crate::reading::run_parse;
use crate::report::{Tally, print_failure, print_unread};
use program_io::input::files::{Unread, read_file};
use replay_calls::command::{Call, Command, command_of};
use replay_calls::failure::Failure;
use replay_calls::line::Line;
use replay_calls::table::Table;
use std::rt::Files;

// The bytes that a file of a case may have, but for a document that is filed.
pub const FILE_CAPACITY: usize = 262144;

// Runs the case of a number, in the folder of that name. Where there is no such folder, or it has no file `calls`, there are no more cases.
pub fn run_case(rt: &(impl Files + AllocGlobal + Print + Eprint), number: usize) -> Option<Tally>
    ensures { IfSome result (Few calls_capacity) }
{
    match run_folder(rt, number) {
        Ok(tally) => Some(tally),
        Err(unread) if unread.is_missing() => None,
        Err(unread) => {
            let _ = eprintln!(rt; "{unread}");
            print_unread(rt, number);
            Some(Tally {
                calls: 0,
                failures: 1,
            })
        }
    }
}

fn run_folder(
    rt: &(impl Files + AllocGlobal + Print + Eprint),
    number: usize,
) -> Result<Tally, Unread>
    ensures { IfOk result (Few calls_capacity) }
{
    let path = format!(in rt.alloc(); "{number}/calls")?;
    let calls = read_file(rt, path, FILE_CAPACITY)?;
    let folder = format!(in rt.alloc(); "{number}/")?;
    Ok(run_lines(rt, number, folder.as_str(), calls.as_slice()))
}

// At most a call and a failure for each byte, since each line has at least one.
fn run_lines(
    rt: &(impl Files + AllocGlobal + Print + Eprint),
    case: usize,
    folder: &str,
    calls: &[u8],
) -> Tally
    ensures { Few (length calls.now) result }
{
    let lines = (1usize..).zip(calls.split_inclusive(|b| *b == b'\n'));
    run_numbered(rt, case, folder, lines)
}

// At most a call and a failure for each line: what is counted is bounded by what the lines, as any iterator, have left. A last line that no line feed ends is malformed.
fn run_numbered<'a, L: Iterator<Item = (usize, &'a [u8])>>(
    rt: &(impl Files + AllocGlobal + Print + Eprint),
    case: usize,
    folder: &str,
    lines: L,
) -> Tally
    requires can { L.can_next lines }
    requires finite { IsFinite (L.remaining lines) }
    ensures { Few (size (L.remaining lines)) result }
{
    let mut table = Table::new();
    let mut tally = Tally::none();
    for (number, whole) in lines {
        let bytes = whole.strip_suffix(b"\n").unwrap_or(whole);
        let command = if whole.ends_with(b"\n") {
            command_of(&Line { bytes })
        } else {
            None
        };
        let calls = matches!(command, Some(Command::Call(_))) as usize;
        tally.add(Tally { calls, failures: 0 });
        if let Err(failure) = run_line(rt, folder, command, &Line { bytes }, &mut table) {
            tally.add(Tally {
                calls: 0,
                failures: 1,
            });
            print_failure(rt, case, number, bytes, failure);
        }
    }
    tally
}

// A line: a call, or what stands between calls.
fn run_line(
    rt: &(impl Files + AllocGlobal + Eprint),
    folder: &str,
    command: Option<Command>,
    line: &Line,
    table: &mut Table,
) -> Result<(), Failure> {
    match command {
        Some(Command::Call(call)) => run_call(rt, folder, call, line, table),
        Some(Command::Tallies) => hold_tallies(line, &table.tallies),
        Some(Command::Change(change)) => table.change(change, line),
        Some(Command::Comment) => Ok(()),
        None => Err(Failure::Malformed),
    }
}

// A call of a public entry, over what is lent.
fn run_call(
    rt: &(impl Files + AllocGlobal + Eprint),
    folder: &str,
    call: Call,
    line: &Line,
    table: &mut Table,
) -> Result<(), Failure> {
    match call {
        Call::File(filing) => run_filing(rt, folder, filing, line, table),
        Call::TurnOn(switch) => run_switch(switch, line, table),
        Call::Build => run_build(rt, folder, line, table),
        Call::Look(lookup) => run_lookup(lookup, line, table),
        Call::Parse => run_parse(rt, folder, line),
    }
}
