// Asks whether evenings can be explained, compares answers and rooms with what is expected, and says how many differ,
// and which. Each group of cases is a file of its own.
#![tactic(auto)]

mod case;
mod judging;

ghost use Rattle.std.specs.Prelude.{IsTrue, is_some};

use cases::{Case, Test};
use std::fs::File;
use std::io;

// The test: every case is one of its own. As in `printed`, the list of files and what is tried are this program's.
#[derive(Clone, Copy)]
struct Evenings;

impl Test for Evenings {
    ghost says = { λ _ _ answer. IsTrue (is_some answer) };

    fn agrees(&self, case: Case<'_>) -> Option<bool> {
        Some(judging::agrees(case))
    }
}

fn main(rt: HostRuntime) -> io::Result<()> {
    for group in ["worked", "papers", "calls", "deep"] {
        let mut source = File::open(&rt, group)?;
        cases::run(&rt, &mut source, group, case::NAME, &Evenings)?;
    }
    Ok(())
}
