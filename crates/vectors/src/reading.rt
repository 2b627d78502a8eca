// The reader's cases: what it answers for a file and a trace number, and the body that it hands back.
use crate::case;
use cases::Case;
use tracefile::{Numbered, Refusal};

// A refusal by its number in the specification, and its place; 0 and 0 where there is none. A function and no `From`: neither
// type is declared here.
fn told(checked: Result<(), Refusal>) -> Numbered {
    match checked {
        Ok(()) => Numbered {
            number: 0,
            place: 0,
        },
        Err(refusal) => Numbered::from(refusal),
    }
}

// What refuses the whole file where this refuses a trace of it: nothing, where only the trace number is wrong.
fn of_file(refusal: Numbered) -> Numbered {
    if refusal.number == 8 {
        Numbered {
            number: 0,
            ..refusal
        }
    } else {
        refusal
    }
}

// Whether the reader does what a case expects.
pub fn agrees(case: Case<'_>) -> bool {
    let file = case.held(case::GIVEN);
    let trace = case.number(case::TRACE);
    let expected = Numbered {
        number: case.number(case::REFUSAL),
        place: case.number(case::PLACE),
    };
    told(tracefile::check_file(file)) == of_file(expected)
        && told(tracefile::check_asked(file, trace)) == expected
        && tracefile::asked_body(file, trace) == case.held(case::EXPECTED)
}
