// The lines that people read, made in bytes that the caller lends. A line that might not fit is not begun. Lines are put by
// functions with exact contracts, since it cannot be shown that what `write!` makes fits the bytes that are lent. Each says by the
// same two clauses what it gives and what it leaves in the bytes.
#![tactic(auto)]

mod notation;
mod pieces;

ghost use Rattle.std.specs.Prelude.{◌≡◌};
ghost use Rattle.std.specs.Fn.{FnOnceReturnsAtMut};
ghost use Rattle.tracefile.specs.Refusals.{refusal as refusal_of};
ghost use Rattle.verdict.specs.Judged.{told};
ghost use Rattle.lines.specs.Text.{refusal_text, refused_text, said_text, answer_text, heading_text, events_text};
ghost use Rattle.lines.specs.Put.{line_room, events_room, written, after};
ghost use Rattle.lines.specs.Pieces.{Puts, KeepsBytes, Made};

pub use notation::record_line;
use pieces::Line;
use tracefile::{Numbered, Refusal};
use verdict::Verdict;

// The room for the longest line of an answer or a refusal.
pub const LINE: usize = 80;

impl Line<'_> {
    // Puts a refusal by its number and its place.
    fn put_refusal(&mut self, by: Numbered)
        ensures { Puts (refusal_text by.number by.place) self.old self.new }
    {
        self.put_number(b"refused ", by.number);
        self.put_last(b" at ", by.place)
    }

    // Puts what is said of a trace.
    fn put_said(&mut self, said: Result<Verdict, verdict::Refusal>)
        ensures { Puts (said_text (told said)) self.old self.new }
    {
        match said {
            Ok(Verdict::Explained { points, events }) => {
                self.put_number(b"explained points ", points);
                self.put_last(b" events ", events)
            }
            Ok(Verdict::Unexplained { points }) => self.put_last(b"unexplained points ", points),
            Ok(Verdict::Undecided { points }) => self.put_last(b"undecided points ", points),
            Err(refusal) => self.put_refusal(Numbered::from(refusal)),
        }
    }

    // Puts the number of a trace and what is said of it.
    fn put_answer(&mut self, trace: u32, said: Result<Verdict, verdict::Refusal>)
        ensures { Puts (answer_text trace (told said)) self.old self.new }
    {
        self.put_number(b"trace ", trace);
        self.put(b" ");
        self.put_said(said)
    }
}

// Makes a line by what puts its pieces. Gives the number of bytes written, and 0 where the bytes are under the room asked for.
// That is a count and no Option: `written` has it so, and where the count ends the next line begins.
fn make_line<F: FnOnce(&mut Line<'_>)>(room: usize, out: &mut [u8], pieces: F) -> usize
    requires callable { F.IsAlwaysCallable pieces }
    requires keeps { KeepsBytes (λ l m. FnOnceReturnsAtMut F.FnOnce pieces l tt m) }
    ensures { Made (λ l m. FnOnceReturnsAtMut F.FnOnce pieces l tt m) room out.old result out.new }
{
    if out.len() < room {
        return 0;
    }
    let mut line = Line::begin(out);
    pieces(&mut line);
    line.at
}

// Writes the line for a trace: its number and what is said of it. Gives the number of bytes written, and 0 where the room is
// too little.
pub fn answer_line(trace: u32, said: Result<Verdict, verdict::Refusal>, out: &mut [u8]) -> usize
    ensures result { result ≡ written line_room (answer_text trace (told said)) out.old }
    ensures out { out.new ≡ after line_room (answer_text trace (told said)) out.old }
{
    make_line(LINE, out, |line| line.put_answer(trace, said))
}

// Writes the line that opens the listing of a trace: its number. Gives the number of bytes written, and 0 where the room is
// too little.
pub fn trace_line(trace: u32, out: &mut [u8]) -> usize
    ensures result { result ≡ written line_room (heading_text trace) out.old }
    ensures out { out.new ≡ after line_room (heading_text trace) out.old }
{
    make_line(LINE, out, |line| line.put_last(b"trace ", trace))
}

// Writes the line for a refused file. Gives the number of bytes written, and 0 where the room is too little.
pub fn refusal_line(refusal: Refusal, out: &mut [u8]) -> usize
    ensures result { result ≡ written line_room (refused_text (refusal_of refusal)) out.old }
    ensures out { out.new ≡ after line_room (refused_text (refusal_of refusal)) out.old }
{
    make_line(LINE, out, |line| line.put_refusal(Numbered::from(refusal)))
}

// Writes the line of the events of an explanation, which are two bytes each. Gives the number of bytes written, and 0 where
// the room is under 3 bytes an event and 1.
pub fn events_line(events: &[u8], out: &mut [u8]) -> usize
    ensures result { result ≡ written (events_room events.now) (events_text events.now) out.old }
    ensures out { out.new ≡ after (events_room events.now) (events_text events.now) out.old }
{
    let Some(room) = (events.len() / 2)
        .checked_mul(3)
        .and_then(|bytes| bytes.checked_add(1))
    else {
        return 0;
    };
    make_line(room, out, |line| line.put_events(events))
}
