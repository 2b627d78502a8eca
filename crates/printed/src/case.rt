// The head of a case: 14 numbers, and what stands in each. The first is the length of the whole case (`cases`).

// A part: the name of the case.
pub const NAME: usize = 4;

// A part: the bytes given, a file, the events of a room or a record.
pub const GIVEN: usize = 12;

// A part: the text expected.
pub const TEXT: usize = 20;

// What is asked for: 1 the text for a file, 2 the line of an answer, 3 the line of events, 4 the line of a refused
// file, 5 the line of a record, 6 the line that opens a listing.
pub const KIND: usize = 28;

// The length of the bytes lent for the text.
pub const ROOM: usize = 32;

// The number of the trace.
pub const TRACE: usize = 36;

// What is said of it: 0 explained, 1 unexplained, 2 undecided, or 10 plus the number of a refusal.
pub const STATUS: usize = 40;

// The number of points.
pub const POINTS: usize = 44;

// The number of events.
pub const EVENTS: usize = 48;

// The place of a refusal.
pub const PLACE: usize = 52;
