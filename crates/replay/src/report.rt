// What is printed: a line for each failure, and how many there were.
ghost use Rattle.std.specs.Prelude.{◌≡◌, ◌+◌, ◌<◌, ◌≤◌, ◌^◌};

use replay_calls::failure::Failure;
use replay_calls::line::DASH;
use std::io;

// How many calls ran, and how many lines failed.
#[derive(Clone, Copy)]
pub struct Tally {
    pub calls: usize,
    pub failures: usize,
}

impl Tally {
    pub fn none() -> Tally
        ensures calls { result.calls ≡ 0 }
        ensures failures { result.failures ≡ 0 }
    {
        Tally {
            calls: 0,
            failures: 0,
        }
    }

    // Stays: the sign of AddAssign would not show that the sums stop at the largest number.
    pub fn add(&mut self, other: Tally)
        ensures calls { self.old.calls + other.calls < 2 ^ 64 → self.new.calls ≡ self.old.calls + other.calls }
        ensures calls_most { self.new.calls ≤ self.old.calls + other.calls }
        ensures failures { self.old.failures + other.failures < 2 ^ 64 → self.new.failures ≡ self.old.failures + other.failures }
        ensures failures_most { self.new.failures ≤ self.old.failures + other.failures }
    {
        self.calls = self.calls.saturating_add(other.calls);
        self.failures = self.failures.saturating_add(other.failures);
    }
}

// Prints a failure with its case, the line's number and the line, which has what was expected. A line need not be text.
// Each piece is a write of its own, and of each one that can't be written it is told: the others are printed all the same.
pub fn print_failure(
    rt: &(impl Print + Eprint),
    case: usize,
    number: usize,
    line: &[u8],
    failure: Failure,
) {
    print_count(rt, case, b" ");
    print_count(rt, number, b": ");
    print(rt, line);
    match failure {
        Failure::Answered { number, card } => print_came(rt, &[number, card]),
        Failure::Field {
            refusal,
            kind,
            meta,
            card,
        } => print_came(rt, &[refusal, kind, meta, card]),
        Failure::Malformed | Failure::NoFile | Failure::Other | Failure::Changed => {
            tell(rt, println!(rt; ": {failure}"));
        }
    }
}

// The numbers that came, as the lines write them.
fn print_came(rt: &(impl Print + Eprint), numbers: &[usize]) {
    print(rt, b": came");
    for number in numbers {
        if *number == DASH {
            print(rt, b" -");
        } else {
            print(rt, b" ");
            print_count(rt, *number, b"");
        }
    }
    print(rt, b"\n");
}

// The calls of a case could not be read.
pub fn print_unread(rt: &(impl Print + Eprint), case: usize) {
    print_count(rt, case, b" 0: the calls can't be read\n");
}

// How many cases, calls and failures there were.
pub fn print_total(rt: &(impl Print + Eprint), cases: usize, total: Tally) {
    print_count(rt, cases, b" cases, ");
    print_count(rt, total.calls, b" calls, ");
    print_count(rt, total.failures, b" failures\n");
}

// A number, and what stands behind it.
fn print_count(rt: &(impl Print + Eprint), n: usize, of: &[u8]) {
    tell(rt, print!(rt; "{n}"));
    print(rt, of);
}

fn print(rt: &(impl Print + Eprint), bytes: &[u8]) {
    tell(rt, rt.write_all(bytes));
}

fn tell(rt: &impl Eprint, printed: io::Result<()>) {
    if let Err(why) = printed {
        let _ = eprintln!(rt; "a line can't be written: {why}");
    }
}
