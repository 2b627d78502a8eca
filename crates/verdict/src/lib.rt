// One file, one trace, one answer: whether the service could have behaved as the tablets report.
#![tactic(auto)]

ghost use Rattle.std.specs.Prelude.{◌≡◌, length, Err};
ghost use Rattle.verdict.specs.declared.Refusal.TheVariants.{File};
ghost use Rattle.verdict.specs.Judged.{told, judged, room_judged, refused};

use tracefile::Numbered;
use walk::{Stop, Walked};

// What is said of a trace. The events stand in the room, and here is how many they are, as the C call tells it; `as` is proved to
// lose nothing of it.
#[derive(Clone, Copy, Debug, PartialEq, Eq)]
pub enum Verdict {
    Explained { points: u32, events: u32 },
    Unexplained { points: u32 },
    Undecided { points: u32 },
}

// Why nothing is said of a trace: its file or its number is refused, the room is too small, or the walk met its depth stop.
#[derive(Clone, Copy, Debug, PartialEq, Eq)]
pub enum Refusal {
    File(tracefile::Refusal),
    NoRoom,
    TooDeep,
}

impl From<tracefile::Refusal> for Refusal {
    ghost from_gives = { λ refusal made. made ≡ File refusal };

    fn from(refusal: tracefile::Refusal) -> Refusal {
        Refusal::File(refusal)
    }
}

impl From<Refusal> for Numbered {
    ghost from_gives = { λ refusal made. refused made.number made.place ≡ told (Err refusal) };

    fn from(refusal: Refusal) -> Numbered {
        match refusal {
            Refusal::File(of_file) => Numbered::from(of_file),
            Refusal::NoRoom => Numbered {
                number: 9,
                place: 0,
            },
            Refusal::TooDeep => Numbered {
                number: 10,
                place: 0,
            },
        }
    }
}

// Says whether trace `trace` of the file can be explained within a budget of points. An explanation is written into the
// room, two bytes an event; otherwise the room stays as it was. What stops a walk is turned here and by no `From`: a spent
// budget is a verdict, and the other two are refusals.
pub fn explain(file: &[u8], trace: u32, budget: u32, room: &mut [u8]) -> Result<Verdict, Refusal>
    ensures result { told result ≡ judged file.now trace budget (length room.old) }
    ensures room { room.new ≡ room_judged file.now trace budget room.old }
{
    let body = tracefile::body_of(file, trace)?;
    match walk::walk(file[1], body, budget, room) {
        Ok(Walked { points, events }) => match events {
            Some(events) => Ok(Verdict::Explained {
                points,
                events: events as u32,
            }),
            None => Ok(Verdict::Unexplained { points }),
        },
        Err(Stop::Spent) => Ok(Verdict::Undecided { points: budget }),
        Err(Stop::Deep) => Err(Refusal::TooDeep),
        Err(Stop::NoRoom) => Err(Refusal::NoRoom),
    }
}
