// A record in the notation of the evenings: R2 1, W1 2<1, S(3,{1,2}), SF.
ghost use Rattle.std.specs.Prelude.{◌≡◌};
ghost use Rattle.lines.specs.Notation.{values_text, found_text, record_text, record_room};
ghost use Rattle.lines.specs.Put.{written, after};
ghost use Rattle.lines.specs.Pieces.{Puts};

use crate::make_line;
use crate::pieces::Line;
use model::Kind;
use records::Record;

// The room for the longest line of a record.
const RECORD: usize = 256;

impl Line<'_> {
    // Puts the values of a set, in rising order and parted by commas.
    fn put_values(&mut self, set: u64)
        ensures { Puts (values_text set) self.old self.new }
    {
        if set == 0 {
            return;
        }
        let lowest = marks::lowest(set);
        self.put_decimal(u32::from(lowest));
        for value in lowest + 1..64 {
            if marks::has(set, value) {
                self.put_number(b",", u32::from(value));
            }
        }
    }

    // Puts what a STABILIZE found: the value at the server and the conflict set.
    fn put_found(&mut self, seen: u8, set: u64)
        ensures { Puts (found_text seen set) self.old self.new }
    {
        self.put_number(b"S(", u32::from(seen));
        self.put(b",{");
        self.put_values(set);
        self.put(b"})\n")
    }

    // Puts a record.
    fn put_record(&mut self, given: Record)
        ensures { Puts (record_text given) self.old self.new }
    {
        match Kind::try_from(given.kind) {
            Ok(Kind::Read) => {
                self.put_number(b"R", u32::from(given.tablet));
                self.put_last(b" ", u32::from(given.seen))
            }
            Ok(Kind::Write) => {
                self.put_number(b"W", u32::from(given.tablet));
                self.put_number(b" ", u32::from(given.new));
                self.put_last(b"<", u32::from(given.seen))
            }
            Ok(Kind::Stabilize) => self.put_found(given.seen, given.set),
            _ => self.put(b"SF\n"),
        }
    }
}

// Writes the line of a record. Gives the number of bytes written, and 0 where the room is too little.
pub fn record_line(given: Record, out: &mut [u8]) -> usize
    ensures result { result ≡ written record_room (record_text given) out.old }
    ensures out { out.new ≡ after record_room (record_text given) out.old }
{
    make_line(RECORD, out, |line| line.put_record(given))
}
