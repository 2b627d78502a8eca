// The console's one call, for C: what is said of a trace as a status, a result area of 12 bytes and the room.
#![tactic(auto)]

ghost use Rattle.std.specs.Prelude.{◌≡◌};
ghost use Rattle.verdict.specs.Judged.{told};
ghost use Rattle.console.specs.Called.{handed_by, status, room_after, area_after};

use tracefile::Numbered;
use verdict::{Refusal, Verdict};

// What is handed back: the status, and the three numbers of the area.
#[derive(Clone, Copy, Debug, Default, PartialEq, Eq)]
pub struct Handed {
    pub status: u32,
    pub points: u32,
    pub events: u32,
    pub place: u32,
}

// The status numbers 0, 1, 2 and 10 plus a refusal's number are the C interface, as are the three numbers beside them.
impl From<Result<Verdict, Refusal>> for Handed {
    ghost from_gives = { λ said made. made ≡ handed_by (told said) };

    fn from(said: Result<Verdict, Refusal>) -> Handed {
        let none = Handed::default();
        match said {
            Ok(Verdict::Explained { points, events }) => Handed {
                points,
                events,
                ..none
            },
            Ok(Verdict::Unexplained { points }) => Handed {
                status: 1,
                points,
                ..none
            },
            Ok(Verdict::Undecided { points }) => Handed {
                status: 2,
                points,
                ..none
            },
            Err(refusal) => {
                let refused = Numbered::from(refusal);
                Handed {
                    status: 10 + refused.number,
                    place: refused.place,
                    ..none
                }
            }
        }
    }
}

// Says whether trace `trace` of the file can be explained within the budget. An area that is not of 12 bytes is refusal 9
// before all else.
#[unsafe(no_mangle)]
pub extern "C" fn sklandupa_explain(
    file: &[u8],
    trace: u32,
    budget: u32,
    room: &mut [u8],
    area: &mut [u8],
) -> u32
    ensures result { result ≡ status file.now trace budget room.old area.old }
    ensures room { room.new ≡ room_after file.now trace budget room.old area.old }
    ensures area { area.new ≡ area_after file.now trace budget room.old area.old }
{
    if area.len() != 12 {
        return Handed::from(Err(Refusal::NoRoom)).status;
    }
    let handed = Handed::from(verdict::explain(file, trace, budget, room));
    area[..4].copy_from_slice(&handed.points.to_le_bytes());
    area[4..8].copy_from_slice(&handed.events.to_le_bytes());
    area[8..].copy_from_slice(&handed.place.to_le_bytes());
    handed.status
}
