// The whole text that the program prints for a file, made in bytes that the caller lends.
#![tactic(auto)]

mod traces;

ghost use Rattle.std.specs.Prelude.{◌≡◌};
ghost use Rattle.lines.specs.Put.{written, after};
ghost use Rattle.report.specs.Printed.{printed};
ghost use Rattle.report.specs.Rooms.{report_room};

use traces::put_traces;

// The room for the longest text: a file has at most 16 traces.
pub const ROOM: usize = 16 * traces::TRACE;

// Writes what is printed for a file. Gives the number of bytes written, and 0 where the room is too little, as `written` has it.
pub fn report(file: &[u8], out: &mut [u8]) -> usize
    ensures result { result ≡ written report_room (printed file.now) out.old }
    ensures out { out.new ≡ after report_room (printed file.now) out.old }
{
    if out.len() < ROOM {
        return 0;
    }
    match tracefile::check_file(file) {
        Ok(()) => put_traces(file, u32::from(file[3]), out),
        Err(refusal) => lines::refusal_line(refusal, out),
    }
}
