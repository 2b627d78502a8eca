// The text of each trace, put one after the other: each at the front of the bytes that are left. Where there is not the room
// for the longest text, less may be put.
ghost use Rattle.std.specs.Prelude.{◌≡◌, ◌*◌, ◌≤◌, length};
ghost use Rattle.tracefile.specs.Refusals.{accepted};
ghost use Rattle.tracefile.specs.File.{check, check_trace, bodies_in};
ghost use Rattle.report.specs.Printed.{trace_text, traces_text};
ghost use Rattle.report.specs.Rooms.{room_size, trace_room, PutIn};

use lines::LINE;
use verdict::Verdict;

// The budget of points.
const BUDGET: u32 = 1000000;

// The most events that an explanation can have: an evening has at most 256 observations on 8 tablets.
const MOST: usize = 256 + 8 * 256;

// The room for a line of as many events.
const EVENTS: usize = 3 * MOST + 1;

// The room for the lines of a trace.
pub const TRACE: usize = LINE + EVENTS;

// Room for the longest explanation, on the stack: the library has no heap.
fn empty() -> [u8; 2 * MOST]
    ensures { room_size ≡ length result }
{
    [0; 2 * MOST]
}

// Puts the lines of a trace. Gives the number of bytes written.
fn put_trace(file: &[u8], trace: u32, out: &mut [u8]) -> usize
    ensures within { result ≤ length out.new }
    ensures text { check_trace file.now trace ≡ accepted → PutIn trace_room (trace_text file.now trace) out.old 0 result out.new }
{
    let mut room = empty();
    let said = verdict::explain(file, trace, BUDGET, &mut room);
    let size = lines::answer_line(trace, said, out);
    match said {
        Ok(Verdict::Explained { events, .. }) => {
            let explanation = &room[..2 * (events as usize)];
            size + lines::events_line(explanation, &mut out[size..])
        }
        _ => size,
    }
}

// Puts the lines of all traces of a good file. Gives the number of bytes written.
pub fn put_traces(file: &[u8], traces: u32, out: &mut [u8]) -> usize
    ensures { check file.now ≡ accepted → traces ≡ bodies_in file.now → PutIn (traces * trace_room) (traces_text file.now traces 1) out.old 0 result out.new }
{
    let mut size = 0;
    for trace in 1..=traces {
        size += put_trace(file, trace, &mut out[size..]);
    }
    size
}
