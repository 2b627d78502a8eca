// The ordered walk over a body: visit and choose call each other. The room that is left falls at each visit, the choices
// at each further choice; the room is written only on the way back from the first end.
#![tactic(auto)]

mod choices;
mod rooms;

ghost use Rattle.std.specs.Prelude.{◌≡◌, ◌+◌, ◌/◌, length};
ghost use Rattle.model.specs.Walk.{tried, walked};
ghost use Rattle.model.specs.Model.{service};
ghost use Rattle.records.specs.Records.{observations};
ghost use Rattle.walk.specs.Choices.{choices_in};
ghost use Rattle.walk.specs.Steps.{left_of, room_after, deeper, answered, room_answered};

use choices::{after, event_at, possible, used};
use model::State;
use rooms::{count_writes, short_of};

// What a walk says that was not stopped: how many points it counted, and the number of events of its end, if it has one.
#[derive(Clone, Copy, Debug, PartialEq, Eq)]
pub struct Walked {
    pub points: u32,
    pub events: Option<usize>,
}

// What stops a walk: the budget is spent, a sequence is longer than any should be, or the room is too small for a walk.
#[derive(Clone, Copy, Debug, PartialEq, Eq)]
pub enum Stop {
    Spent,
    Deep,
    NoRoom,
}

// What a visit comes to that was not stopped: what it leaves of the budget, and the number of events from here to an end,
// if it found one.
#[derive(Clone, Copy)]
struct Seen {
    left: u32,
    events: Option<usize>,
}

// Visits a point, which is counted already: left is what the budget still has. Body, state, budget and room change each by
// itself from one step to the next, so they stand apart, and n, which does not, is none of theirs.
#[cycle(choose_visit)]
fn visit(n: u8, body: &[u8], state: &State, left: u32, room: &mut [u8]) -> Result<Seen, Stop>
    ensures result { result ≡ left_of (left + 1) (walked (service n) (length room.old / 2) state.now (observations body.now)) }
    ensures room { room.new ≡ room_after (left + 1) (walked (service n) (length room.old / 2) state.now (observations body.now)) room.old }
{
    if body.len() < 12 {
        return Ok(Seen {
            left,
            events: Some(0),
        });
    }
    let choices = possible(n, body, state);
    if choices == 0 {
        return Ok(Seen { left, events: None });
    }
    choose(n, body, state, choices, left, room)
}

// Tries the choices of a point, the lowest first. Where none are left there is no call for them: it would take a frame.
#[cycle(choose_visit)]
fn choose(
    n: u8,
    body: &[u8],
    state: &State,
    choices: u64,
    left: u32,
    room: &mut [u8],
) -> Result<Seen, Stop>
    ensures result { result ≡ left_of left (tried (service n) (deeper n (length room.old / 2) state.now) (choices_in choices (observations body.now))) }
    ensures room { room.new ≡ room_after left (tried (service n) (deeper n (length room.old / 2) state.now) (choices_in choices (observations body.now))) room.old }
{
    if body.len() < 12 {
        return Ok(Seen { left, events: None });
    }
    if choices == 0 {
        return Ok(Seen { left, events: None });
    }
    if left == 0 {
        return Err(Stop::Spent);
    }
    if room.len() < 2 {
        return Err(Stop::Deep);
    }
    let pick = marks::lowest(choices);
    let next = after(body, state, pick);
    let skip = used(pick);
    let seen = visit(n, &body[skip..], &next, left - 1, &mut room[2..])?;
    match seen.events {
        Some(events) => {
            room[..2].copy_from_slice(&event_at(body, pick));
            Ok(Seen {
                events: Some(events + 1),
                ..seen
            })
        }
        None => {
            let others = marks::remove(choices, pick);
            if others == 0 {
                return Ok(seen);
            }
            choose(n, body, state, others, seen.left, room)
        }
    }
}

// Walks the trace of a body on n tablets, from the first state, within a budget of points.
pub fn walk(n: u8, body: &[u8], budget: u32, room: &mut [u8]) -> Result<Walked, Stop>
    ensures result { result ≡ answered n (observations body.now) budget (length room.old) }
    ensures room { room.new ≡ room_answered n (observations body.now) budget room.old }
{
    let t = body.len() / 12;
    let w = count_writes(body);
    if short_of(n, t, w, room.len()) {
        return Err(Stop::NoRoom);
    }
    let left = budget.checked_sub(1).ok_or(Stop::Spent)?;
    // With `usize::from` the proof does not know that the limit is the depth's.
    let limit = 2 * (t + (n as usize) * w);
    // The root is visited here. Then `visit` is called by `choose` alone, becomes a part of it, and an event takes one frame.
    if body.len() < 12 {
        return Ok(Walked {
            points: 1,
            events: Some(0),
        });
    }
    let first = events::first(n);
    let choices = possible(n, body, &first);
    let seen = choose(n, body, &first, choices, left, &mut room[0..limit])?;
    Ok(Walked {
        points: budget - seen.left,
        events: seen.events,
    })
}
