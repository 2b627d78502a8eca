// One record: 12 bytes, read as five numbers; whether it keeps its row of the table of records; and what it says.
#![tactic(auto)]

ghost use Rattle.std.specs.Prelude.{◌≡◌, ◌+◌, ◌^◌, leb, ltb, length, take, drop, is_some, IfSome};
ghost use Rattle.records.specs.Records.{record_at, one_of, read_row, write_row, stabilize_row, failed_row, keeps_row, next_record, observation_of};

use model::{Kind, Observation};

// One record as its bytes have it. Its kind is a byte and no enum, since any byte at all can stand there.
#[derive(Clone, Copy, Debug, PartialEq, Eq, Default)]
pub struct Record {
    pub set: u64,
    pub kind: u8,
    pub tablet: u8,
    pub new: u8,
    pub seen: u8,
}

// How many tablets and values a file speaks of.
#[derive(Clone, Copy, Debug, PartialEq, Eq)]
pub struct Limits {
    pub tablets: u8,
    pub values: u8,
}

// The 12 bytes of the record at a place, where so many are left.
fn bytes_at(file: &[u8], at: usize) -> Option<&[u8; 12]>
    ensures left { is_some result ≡ leb (at + 12) (length file.now) }
    ensures these { IfSome result (λ bytes. bytes.now ≡ take 12 (drop at file.now)) }
{
    file.get(at..)?.first_chunk::<12>()
}

// The record that 12 bytes stand for.
impl From<&[u8; 12]> for Record {
    ghost from_gives = { λ bytes r. r ≡ record_at bytes.now 0 };

    #[tactic(auto, unfolding(crate::specs::Records::record_at, crate::specs::Bytes::number))]
    fn from(bytes: &[u8; 12]) -> Record {
        Record {
            set: u64::from_le_bytes([
                bytes[4], bytes[5], bytes[6], bytes[7], bytes[8], bytes[9], bytes[10], bytes[11],
            ]),
            kind: bytes[0],
            tablet: bytes[1],
            new: bytes[2],
            seen: bytes[3],
        }
    }
}

// The record at a place, or all 0 where fewer than 12 bytes are left: `record_at` has a record everywhere.
#[tactic(auto, using(crate::proofs::Parts::record_part), unfolding(crate::specs::Records::record_at))]
pub fn read_record(file: &[u8], at: usize) -> Record
    ensures { result ≡ record_at file.now at }
{
    match bytes_at(file, at) {
        Some(bytes) => Record::from(bytes),
        None => Record::default(),
    }
}

// A step of a listing, from any position at all: the next record, if there is one, and the position after it. At the end the
// position stays.
#[tactic(auto, using(crate::proofs::Parts::record_part), unfolding(crate::specs::Records::next_record))]
pub fn next(body: &[u8], at: usize) -> (Option<Record>, usize)
    ensures { result ≡ next_record body.now at }
{
    match bytes_at(body, at) {
        Some(bytes) => (Some(Record::from(bytes)), at + 12),
        None => (None, at),
    }
}

// Whether no bit from v up is set.
#[tactic(auto, using(crate::proofs::Numbers::shifted_out, crate::proofs::Numbers::all_below))]
fn below(v: u8, set: u64) -> bool
    ensures { result ≡ ltb set (2 ^ v) }
{
    64 <= v || set >> v == 0
}

// A record keeps the row of its kind; no other kind has a row.
impl Limits {
    // Whether there is a tablet of this number.
    fn has_tablet(self, tablet: u8) -> bool
        ensures { result ≡ one_of self.tablets tablet }
    {
        (1..=self.tablets).contains(&tablet)
    }

    // The row of a READ.
    #[tactic(auto, unfolding(crate::specs::Records::read_row))]
    fn keeps_read(self, r: Record) -> bool
        ensures { r.kind ≡ 1 → result ≡ read_row self.tablets self.values r }
    {
        self.has_tablet(r.tablet) && r.new == 0 && r.seen < self.values && r.set == 0
    }

    // The row of a WRITE.
    #[tactic(auto, unfolding(crate::specs::Records::write_row))]
    fn keeps_write(self, r: Record) -> bool
        ensures { r.kind ≡ 2 → result ≡ write_row self.tablets self.values r }
    {
        self.has_tablet(r.tablet) && r.new < self.values && r.seen < self.values && r.set == 0
    }

    // The row of a STABILIZE: bit 0 and bits from v up are clear.
    #[tactic(auto, unfolding(crate::specs::Records::stabilize_row))]
    fn keeps_stabilize(self, r: Record) -> bool
        ensures { r.kind ≡ 3 → result ≡ stabilize_row self.values r }
    {
        r.tablet == 0
            && r.new == 0
            && r.seen < self.values
            && r.set % 2 == 0
            && below(self.values, r.set)
    }

    // Whether a record keeps the row of its kind. UP, DOWN and bytes that are no kind have no row.
    #[tactic(auto, unfolding(crate::specs::Records::keeps_row))]
    pub fn keep(self, r: Record) -> bool
        ensures { result ≡ keeps_row self.tablets self.values r }
    {
        match Kind::try_from(r.kind) {
            Ok(Kind::Read) => self.keeps_read(r),
            Ok(Kind::Write) => self.keeps_write(r),
            Ok(Kind::Stabilize) => self.keeps_stabilize(r),
            Ok(Kind::Failed) => keeps_failed(r),
            Ok(Kind::Up | Kind::Down) | Err(_) => false,
        }
    }
}

// The row of a failed STABILIZE, which holds nothing beside its kind.
#[tactic(auto, unfolding(crate::specs::Records::failed_row))]
fn keeps_failed(r: Record) -> bool
    ensures { r.kind ≡ 4 → result ≡ failed_row r }
{
    r.tablet == 0 && r.new == 0 && r.seen == 0 && r.set == 0
}

// What a record says.
#[tactic(auto, unfolding(crate::specs::Records::observation_of))]
pub fn observation(r: Record) -> Observation
    ensures { result ≡ observation_of r }
{
    match Kind::try_from(r.kind) {
        Ok(Kind::Read) if r.new == 0 && r.set == 0 => Observation::Read {
            tablet: r.tablet,
            seen: r.seen,
        },
        Ok(Kind::Write) if r.set == 0 => Observation::Write {
            tablet: r.tablet,
            new: r.new,
            seen: r.seen,
        },
        Ok(Kind::Stabilize) if r.tablet == 0 && r.new == 0 => Observation::Stabilize {
            seen: r.seen,
            conflicts: r.set,
        },
        _ => Observation::Failed,
    }
}
