// The head of a case: 14 numbers, and what stands in each. The first is the length of the whole case (`cases`).

// A part: the name of the case.
pub const NAME: usize = 4;

// A part: the trace file.
pub const FILE: usize = 12;

// A part: the events expected at the front of the room, two bytes each. It is empty where none are expected.
pub const EVENTS: usize = 20;

// The expected status: 0 explained, 1 unexplained, 2 undecided, or 10 plus the number of a refusal.
pub const STATUS: usize = 28;

// The expected number of points, and 0 on a refusal.
pub const POINTS: usize = 32;

// The place of the expected refusal, and 0 where there is none.
pub const PLACE: usize = 36;

// The trace that is asked for.
pub const TRACE: usize = 40;

// The budget of points.
pub const BUDGET: usize = 44;

// The length of the room.
pub const ROOM: usize = 48;

// The expected number of events.
pub const COUNT: usize = 52;
