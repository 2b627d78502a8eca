// The trace file: whether it is good and where it is not, the body of one of its traces.
#![tactic(auto)]

mod contents;

ghost use Rattle.std.specs.Prelude.{◌≡◌, IfOk, IfErr};
ghost use Rattle.tracefile.specs.Refusals.{told, accepted, refused};
ghost use Rattle.tracefile.specs.Refusals.{refusal as refusal_of};
ghost use Rattle.tracefile.specs.File.{check, check_trace, asked};

use contents::{Head, check_contents, check_head, check_records, number2};

// Why a file, or a trace number, is refused. A case that has no fixed place carries it.
#[derive(Clone, Copy, Debug, PartialEq, Eq)]
pub enum Refusal {
    Length,
    Edition,
    Tablets,
    Values,
    Bodies,
    Contents(u32),
    BadRecord(u32),
    Trace,
}

// A refusal by its number in the table, and its place. The numbers stand in the specification, and are what is told outside.
#[derive(Clone, Copy, Debug, PartialEq, Eq)]
pub struct Numbered {
    pub number: u32,
    pub place: u32,
}

// The number and the place of a refusal.
impl From<Refusal> for Numbered {
    ghost from_gives = { λ refusal numbered. refused numbered.number numbered.place ≡ refusal_of refusal };

    fn from(refusal: Refusal) -> Numbered {
        match refusal {
            Refusal::Length => Numbered {
                number: 1,
                place: 0,
            },
            Refusal::Edition => Numbered {
                number: 2,
                place: 0,
            },
            Refusal::Tablets => Numbered {
                number: 3,
                place: 1,
            },
            Refusal::Values => Numbered {
                number: 4,
                place: 2,
            },
            Refusal::Bodies => Numbered {
                number: 5,
                place: 3,
            },
            Refusal::Contents(place) => Numbered { number: 6, place },
            Refusal::BadRecord(place) => Numbered { number: 7, place },
            Refusal::Trace => Numbered {
                number: 8,
                place: 0,
            },
        }
    }
}

// Whether the whole file is good: refusals 1 to 7.
#[tactic(auto, using(crate::proofs::Loops::first_refusal), unfolding(crate::specs::File::check))]
pub fn check_file(file: &[u8]) -> Result<(), Refusal>
    ensures { told result ≡ check file.now }
{
    check_head(file)?;
    check_contents(file)?;
    check_records(file)
}

// Whether the whole file is good and has a trace of this number: refusals 1 to 8. The range is compared as those of the head are.
#[tactic(auto, using(crate::proofs::Loops::first_refusal), unfolding(crate::specs::File::check_trace))]
pub fn check_asked(file: &[u8], trace: u32) -> Result<(), Refusal>
    ensures { told result ≡ check_trace file.now trace }
{
    check_file(file)?;
    let bodies = u32::from(Head::of(file).bodies);
    if trace < 1 || bodies < trace {
        return Err(Refusal::Trace);
    }
    Ok(())
}

// The body of the asked trace, as a part of the file, or why there is none: refusals 1 to 8. File and number stay apart, as the C
// call and `asked` have them.
#[tactic(auto, using(crate::proofs::Good::placed))]
pub fn body_of(file: &[u8], trace: u32) -> Result<&[u8], Refusal>
    ensures body { IfOk result (λ body. (check_trace file.now trace ≡ accepted) × (body.now ≡ asked file.now trace)) }
    ensures refusal { IfErr result (λ refusal. refusal_of refusal ≡ check_trace file.now trace) }
{
    check_asked(file, trace)?;
    let entry = 4 * trace;
    let start = usize::from(number2(file, entry));
    let count = usize::from(number2(file, entry + 2));
    Ok(&file[start..start + 12 * count])
}

// The body of the asked trace, as a part of the file; empty where 1 to 8 apply. That is no Option, since `asked` has it so, and
// this cannot fail: `body_of` gives the refusal.
pub fn asked_body(file: &[u8], trace: u32) -> &[u8]
    ensures { result.now ≡ asked file.now trace }
{
    body_of(file, trace).unwrap_or(&file[..0])
}
