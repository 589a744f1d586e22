// Runs cases of calls: each folder 0, 1, 2 .. holds a file `calls` with one call a line and what must come of it. Every call goes through the public entries,
// over a store, rows and errors of local arrays. A failing call is printed, and at the end how many cases, calls and failures there were.
#![tactic(auto)]

mod builds;
mod case;
mod filing;
mod held;
mod lookups;
mod reading;
mod report;

use case::run_case;
use report::{Tally, print_total};

fn main(rt: HostRuntime) {
    let mut total = Tally::none();
    let mut cases = 0;
    for number in 0..usize::MAX {
        let Some(tally) = run_case(&rt, number) else {
            break;
        };
        total.add(tally);
        cases = number + 1;
    }
    print_total(&rt, cases, total);
}
