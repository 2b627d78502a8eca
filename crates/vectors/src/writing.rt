// The writer's cases: what it answers, and what stands in its buffer afterwards.
use crate::case;
use cases::Case;
use writer::Unwritten;

// What is compared: a refusal by its number in the specification, and its place, 0 and 0 where there is none; then the
// length of the file, 0 where there is none. They are numbers, since the head of a packed case has them so.
#[derive(Clone, Copy, Debug, PartialEq, Eq)]
struct Answer {
    refusal: u32,
    place: u32,
    length: usize,
}

// The answer that the writer gave.
impl From<Result<u32, Unwritten>> for Answer {
    fn from(written: Result<u32, Unwritten>) -> Answer {
        let (refusal, place, length) = match written {
            Ok(length) => (0, 0, length as usize),
            Err(Unwritten::Tablets) => (3, 0, 0),
            Err(Unwritten::Values) => (4, 0, 0),
            Err(Unwritten::Bodies) => (5, 0, 0),
            Err(Unwritten::Counts) => (6, 0, 0),
            Err(Unwritten::BadRecord(place)) => (7, place, 0),
            Err(Unwritten::Room) => (9, 0, 0),
        };
        Answer {
            refusal,
            place,
            length,
        }
    }
}

// The answer that a case expects.
impl From<Case<'_>> for Answer {
    fn from(case: Case<'_>) -> Answer {
        Answer {
            refusal: case.number(case::REFUSAL),
            place: case.number(case::PLACE),
            length: case.held(case::EXPECTED).len(),
        }
    }
}

// Whether the writer, with these counts and this buffer, does what a case expects.
fn writes(case: Case<'_>, counts: &[u32], buffer: &mut [u8]) -> bool {
    let n = case.number(case::TABLETS);
    let v = case.number(case::VALUES);
    let records = case.held(case::GIVEN);
    let written = writer::write_file(n, v, counts, records, buffer);
    Answer::from(written) == Answer::from(case) && cases::stands(case.held(case::EXPECTED), buffer)
}

// The counts of a case, and 0 after the last of them: fixed memory, with room for more than any case has.
fn counts_of(case: Case<'_>) -> [u32; 32] {
    let held = Case {
        packed: case.held(case::COUNTS),
    };
    let mut counts = [0; 32];
    for (i, count) in counts.iter_mut().enumerate() {
        *count = held.number(4 * i);
    }
    counts
}

// Whether the writer does what a case expects, with as many counts and as much room as the case says; no case says more
// than there is here.
pub fn agrees(case: Case<'_>) -> bool {
    let counts = counts_of(case);
    let mut room = cases::filled::<65536>();
    let k = case.held(case::COUNTS).len() / 4;
    let length = case.number(case::BUFFER) as usize;
    match (counts.get(..k), room.get_mut(..length)) {
        (Some(counts), Some(buffer)) => writes(case, counts, buffer),
        _ => false,
    }
}
