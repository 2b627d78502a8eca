// Cases for the test programs, packed one after the other into bytes. A case is a head of numbers, 4 bytes each, least
// byte first, and then its parts. The first number is the length of the whole case; for a part the head has two
// numbers, where it starts in the case and its length. What is not there is 0, or empty, as `number_at` and `part_at` have
// it. Here a file of them is read, and a test is tried on each.
#![tactic(auto)]

ghost use Rattle.std.specs.Prelude.{◌≡◌, ℕ, ◌<◌, ◌≤◌, ◌++◌, Bool, EachIndex, IfOk, List, Option, Some, codes};
ghost use Rattle.std.specs.Prelude.{drop, length, slice_index, take, ⊤};
ghost use Rattle.std.specs.Fmt.{decimal};
ghost use Rattle.std.specs.Io.KnownBytes.{Consumes, IsAtEnd};
ghost use Rattle.std.specs.Iterator.{YieldsFirstBy, item_count};
ghost use Rattle.cases.specs.declared.Case.{Case};
ghost use Rattle.cases.specs.Seen.{packed_of, cases_left};
ghost use Rattle.cases.specs.Tallied.{Tallies};
ghost use Rattle.cases.specs.Packed.{cases_in, number_at, part_at, held_at, pattern, stands_in};

use std::io::Read;
use std::{fmt, io};

// What every byte that is lent for writing is beforehand.
pub const PATTERN: u8 = 0xa5;

// How many bytes of packed cases are read: more than any file of them has. The memory is fixed, so that no test asks for more.
pub const ROOM: usize = 524288;

// The bytes of a case.
#[derive(Clone, Copy, Debug, PartialEq, Eq)]
pub struct Case<'a> {
    pub packed: &'a [u8],
}

impl<'a> Case<'a> {
    // What stands from a place on.
    fn after(self, at: usize) -> &'a [u8]
        ensures { result.now ≡ drop at self.entry.packed.now }
    {
        &self.packed[at.min(self.packed.len())..]
    }

    // The number in the four bytes at a place.
    #[tactic(auto, using(crate::proofs::Packed::number_here, crate::proofs::Packed::no_number))]
    pub fn number(self, at: usize) -> u32
        ensures { result ≡ number_at self.entry.packed.now at }
    {
        match self.after(at) {
            [first, second, third, last, ..] => u32::from_le_bytes([
                *first, *second, *third, *last,
            ]),
            _ => 0,
        }
    }

    // The part of so many bytes at a place.
    #[tactic(auto, using(crate::proofs::Packed::part_here, crate::proofs::Packed::no_part))]
    pub fn part(self, start: usize, length: usize) -> &'a [u8]
        ensures { result.now ≡ part_at self.entry.packed.now start length }
    {
        let rest = self.after(start);
        if length <= rest.len() {
            &rest[..length]
        } else {
            &[]
        }
    }

    // The part whose start and length stand at a place of the head.
    #[tactic(auto, using(crate::proofs::Packed::none_held), unfolding(crate::specs::Packed::held_at))]
    pub fn held(self, at: usize) -> &'a [u8]
        ensures { result.now ≡ held_at self.entry.packed.now at }
    {
        if self.packed.len() <= at {
            return &[];
        }
        let start = self.number(at) as usize;
        let length = self.number(at + 4) as usize;
        self.part(start, length)
    }
}

// Cases that are packed one after the other. They end where the next would have no bytes, or more than are left.
#[derive(Clone, Copy, Debug, PartialEq, Eq)]
pub struct Cases<'a> {
    pub rest: &'a [u8],
}

impl<'a> Iterator for Cases<'a> {
    type Item = Case<'a>;

    ghost next_gives = { YieldsFirstBy packed_of cases_left };

    ghost remaining = { item_count cases_left };

    #[tactic(auto, using(crate::proofs::Sequence::first_case, crate::proofs::Sequence::no_case))]
    fn next(&mut self) -> Option<Case<'a>> {
        let length = Case { packed: self.rest }.number(0) as usize;
        if length == 0 || self.rest.len() < length {
            return None;
        }
        let (packed, rest) = self.rest.split_at(length);
        self.rest = rest;
        Some(Case { packed })
    }
}

// Whether bytes start with those at the front, and have the pattern in every byte after them.
#[tactic(auto, using(crate::proofs::Packed::begins_otherwise))]
pub fn stands(front: &[u8], bytes: &[u8]) -> bool
    ensures { result ≡ stands_in front.now bytes.now }
{
    match bytes.strip_prefix(front) {
        Some(rest) => rest.iter().all(|byte| *byte == PATTERN),
        None => false,
    }
}

// Room that nothing was written into: the pattern in every byte.
pub fn filled<const N: usize>() -> [u8; N]
    ensures length { length result ≡ N }
    ensures pattern { EachIndex result (λ k. slice_index result k ≡ pattern) }
{
    [PATTERN; N]
}

// Reads until the room is full or there is no more, and says how many bytes came: they stand at the front, in the order
// in which the reader had them. A read that fails ends it. It counts what has come by hand, since a read brings as much
// as it likes: std's `read_to_end` fills a Vec, and its `read_exact` fails where less comes than there is room for.
pub fn read_full<R: Read>(reader: &mut R, room: &mut [u8]) -> io::Result<usize>
    ensures same_length { length room.new ≡ length room.old }
    ensures within { IfOk result (λ n. n ≤ length room.new) }
    ensures front { IfOk result (λ n. Consumes (R.remaining reader.old) (R.remaining reader.new) (take n room.new)) }
    ensures no_more { IfOk result (λ n. n < length room.new → IsAtEnd (R.remaining reader.new)) }
{
    let mut done = 0;
    while done < room.len() {
        let came = reader.read(&mut room[done..])?;
        if came == 0 {
            break;
        }
        done += came;
    }
    Ok(done)
}

// How many cases a test is about, and how many of them differ from what is expected.
#[derive(Clone, Copy, Debug, PartialEq, Eq)]
pub struct Tally {
    pub cases: usize,
    pub differ: usize,
}

impl fmt::Display for Tally {
    ghost output = { λ tally. Some (decimal tally.cases ++ codes " cases, " ++ decimal tally.differ ++ codes " differ") };

    fn fmt<W: fmt::Write>(&self, f: &mut fmt::Formatter<W>) -> fmt::Result {
        write!(f, "{} cases, {} differ", self.cases, self.differ)
    }
}

// Says the name of a case that differs.
fn say_name(rt: &impl Print, group: &str, name: &[u8]) {
    let _ = print!(rt; "{group}: ");
    let _ = rt.write_all(name);
    let _ = println!(rt; " differs");
}

// A test of cases. It is a trait and no closure: a closure may ask something of its caller, and `run` would have to ask it of
// its own.
pub trait Test {
    // What the test may say of a case.
    ghost says: { Self → Case → Option Bool → Type 0 } = { λ _ _ _. ⊤ };

    // Whether a case agrees with what is expected, and nothing of a case that is none of its own.
    fn agrees(&self, case: Case<'_>) -> Option<bool>
        ensures { says self.now case.entry result };
}

// Tries a test on packed cases, in their order. Says the name of each that differs, and then in one line how many there are and
// how many differ. The name of a case is the part that its head names at a place. What cannot be printed is left out: the answer
// is the tally all the same. `run` takes the same, with a source in place of the bytes, and hands it on once.
pub fn run_packed<R: Print, T: Test>(
    rt: &R,
    group: &str,
    name: usize,
    packed: &[u8],
    test: &T,
) -> Tally
    ensures { Tallies (T.says test.now) (cases_in packed.now) result }
{
    let mut tally = Tally {
        cases: 0,
        differ: 0,
    };
    for case in (Cases { rest: packed }) {
        let answer = test.agrees(case);
        let differs = answer == Some(false);
        if differs {
            say_name(rt, group, case.held(name));
        }
        tally.cases += usize::from(answer.is_some());
        tally.differ += usize::from(differs);
    }
    let _ = println!(rt; "{group}: {tally}");
    tally
}

// Reads packed cases, and runs a test on them.
pub fn run<R: Print, S: Read, T: Test>(
    rt: &R,
    source: &mut S,
    group: &str,
    name: usize,
    test: &T,
) -> io::Result<Tally>
    ensures { IfOk result (λ tally. (packed : List ℕ)
        × Consumes (S.remaining source.old) (S.remaining source.new) packed
        × (length packed < ROOM → IsAtEnd (S.remaining source.new))
        × Tallies (T.says test.now) (cases_in packed) tally) }
{
    let mut room = filled::<ROOM>();
    let length = read_full(source, &mut room)?;
    Ok(run_packed(rt, group, name, &room[..length], test))
}
