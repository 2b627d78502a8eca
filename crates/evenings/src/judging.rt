// What is said of a case, and what stands in its room afterwards.
use crate::case;
use cases::Case;
use tracefile::Numbered;
use verdict::{Refusal, Verdict};

// What is compared, the four numbers of the C call, whose library no crate can rest on: a status, 0 explained, 1 unexplained,
// 2 undecided, or 10 plus the number of a refusal; then points, events and place, 0 where there is none. They are numbers and
// no enum, since the head of a packed case has them so.
#[derive(Clone, Copy, Debug, PartialEq, Eq, Default)]
struct Answer {
    status: u32,
    points: u32,
    events: u32,
    place: u32,
}

impl From<Verdict> for Answer {
    fn from(verdict: Verdict) -> Answer {
        let (status, points, events) = match verdict {
            Verdict::Explained { points, events } => (0, points, events),
            Verdict::Unexplained { points } => (1, points, 0),
            Verdict::Undecided { points } => (2, points, 0),
        };
        Answer {
            status,
            points,
            events,
            place: 0,
        }
    }
}

impl From<Refusal> for Answer {
    fn from(refusal: Refusal) -> Answer {
        let Numbered { number, place } = Numbered::from(refusal);
        Answer {
            status: number.wrapping_add(10),
            place,
            ..Answer::default()
        }
    }
}

// The answer that a case expects.
impl From<Case<'_>> for Answer {
    fn from(case: Case<'_>) -> Answer {
        Answer {
            status: case.number(case::STATUS),
            points: case.number(case::POINTS),
            events: case.number(case::COUNT),
            place: case.number(case::PLACE),
        }
    }
}

// Whether the call with this room does what a case expects.
fn judges(case: Case<'_>, room: &mut [u8]) -> bool {
    let file = case.held(case::FILE);
    let trace = case.number(case::TRACE);
    let budget = case.number(case::BUDGET);
    let answer = match verdict::explain(file, trace, budget, room) {
        Ok(verdict) => Answer::from(verdict),
        Err(refusal) => Answer::from(refusal),
    };
    answer == Answer::from(case) && cases::stands(case.held(case::EVENTS), room)
}

// Whether the call does what a case expects, in as much room as the case says; no case says more than there is here. `printed`
// and `vectors` do likewise, each with its own room and call: one function for all would take a closure, which may ask
// something of its caller.
pub fn agrees(case: Case<'_>) -> bool {
    let mut room = cases::filled::<8192>();
    match room.get_mut(..case.number(case::ROOM) as usize) {
        Some(room) => judges(case, room),
        None => false,
    }
}
