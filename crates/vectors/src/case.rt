// The head of a case: 15 numbers, and what stands in each. The first is the length of the whole case (`cases`).

// The kind of the case: one of the two numbers below, which are only compared with it.
pub const KIND: usize = 4;

pub const READER: u32 = 1;

pub const WRITER: u32 = 2;

// A part: the name of the case.
pub const NAME: usize = 8;

// A part: the reader's file, or all records for the writer, back to back.
pub const GIVEN: usize = 16;

// A part: the reader's body, or the writer's file. It is empty where a refusal is expected.
pub const EXPECTED: usize = 24;

// A part: the counts for the writer, 4 bytes each.
pub const COUNTS: usize = 32;

// The number of the expected refusal, and 0 for none.
pub const REFUSAL: usize = 40;

// The place of the expected refusal.
pub const PLACE: usize = 44;

// The trace that the reader is asked for.
pub const TRACE: usize = 48;

// The writer's n, which stands where the reader's trace does.
pub const TABLETS: usize = 48;

// The writer's v.
pub const VALUES: usize = 52;

// The length of the writer's buffer.
pub const BUFFER: usize = 56;
