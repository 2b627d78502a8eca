// Runs cases from outside through the reader and the writer of trace files, and says how many differ, and which.
#![tactic(auto)]

mod case;
mod reading;
mod writing;

use cases::{Case, ROOM, Test};
use std::fs::File;
use std::io;

// Which cases are run, and so by what they are judged: those of both kinds stand in one file, and are run in one `for`.
#[derive(Clone, Copy)]
enum Kind {
    Reader,
    Writer,
}

impl Test for Kind {
    fn agrees(&self, case: Case<'_>) -> Option<bool> {
        let kind = case.number(case::KIND);
        match self {
            Kind::Reader if kind == case::READER => Some(reading::agrees(case)),
            Kind::Writer if kind == case::WRITER => Some(writing::agrees(case)),
            _ => None,
        }
    }
}

fn main(rt: HostRuntime) -> io::Result<()> {
    // The file is read once, whatever it is, and both kinds of cases are run on what came.
    let mut source = File::open(&rt, "cases")?;
    let mut room = cases::filled::<ROOM>();
    let length = cases::read_full(&mut source, &mut room)?;
    for (group, kind) in [("reader", Kind::Reader), ("writer", Kind::Writer)] {
        cases::run_packed(&rt, group, case::NAME, &room[..length], &kind);
    }
    Ok(())
}
