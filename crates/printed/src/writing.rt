// What is written for a case, compared with the text that is expected.
use crate::case;
use cases::Case;
use tracefile::Refusal;
use verdict::Verdict;

// What a case asks for: the text for a file, or one line. It stands as a number in the case, so one place has to choose.
enum Asked {
    Report,
    Answer,
    Events,
    Refusal,
    Record,
    Heading,
}

// By the number that stands in the head of the case.
impl From<u32> for Asked {
    fn from(kind: u32) -> Asked {
        match kind {
            1 => Asked::Report,
            2 => Asked::Answer,
            3 => Asked::Events,
            5 => Asked::Record,
            6 => Asked::Heading,
            _ => Asked::Refusal,
        }
    }
}

// The refusal of a file that has a number in the table. The numbers are those of the packed cases. A function and no `From`:
// neither type is declared here.
fn refusal(number: u32, place: u32) -> Refusal {
    match number {
        1 => Refusal::Length,
        2 => Refusal::Edition,
        3 => Refusal::Tablets,
        4 => Refusal::Values,
        5 => Refusal::Bodies,
        6 => Refusal::Contents(place),
        7 => Refusal::BadRecord(place),
        _ => Refusal::Trace,
    }
}

// The refusal that a case is about.
fn refusal_in(case: Case<'_>) -> Refusal {
    match case.number(case::STATUS).checked_sub(10) {
        Some(number) => refusal(number, case.number(case::PLACE)),
        None => Refusal::Trace,
    }
}

// What a case says of a trace, by the status in its head.
fn said_in(case: Case<'_>) -> Result<Verdict, verdict::Refusal> {
    let points = case.number(case::POINTS);
    match case.number(case::STATUS) {
        0 => Ok(Verdict::Explained {
            points,
            events: case.number(case::EVENTS),
        }),
        1 => Ok(Verdict::Unexplained { points }),
        2 => Ok(Verdict::Undecided { points }),
        19 => Err(verdict::Refusal::NoRoom),
        20 => Err(verdict::Refusal::TooDeep),
        _ => Err(verdict::Refusal::from(refusal_in(case))),
    }
}

// Writes what a case asks for, and gives the number of bytes written.
fn write(case: Case<'_>, out: &mut [u8]) -> usize {
    let given = case.held(case::GIVEN);
    let trace = case.number(case::TRACE);
    match Asked::from(case.number(case::KIND)) {
        Asked::Report => report::report(given, out),
        Asked::Answer => lines::answer_line(trace, said_in(case), out),
        Asked::Events => lines::events_line(given, out),
        Asked::Refusal => lines::refusal_line(refusal_in(case), out),
        Asked::Record => lines::record_line(records::read_record(given, 0), out),
        Asked::Heading => lines::trace_line(trace, out),
    }
}

// Whether what is written is the text that a case expects, and its length is what is told.
fn writes(case: Case<'_>, out: &mut [u8]) -> bool {
    let text = case.held(case::TEXT);
    write(case, out) == text.len() && cases::stands(text, out)
}

// Whether what is written is what a case expects, in as much room as the case says; no case says more than is here.
pub fn agrees(case: Case<'_>) -> bool {
    let mut room = cases::filled::<131072>();
    match room.get_mut(..case.number(case::ROOM) as usize) {
        Some(out) => writes(case, out),
        None => false,
    }
}
