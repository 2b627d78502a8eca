// A trace file from records. It decides before it writes, so that a refusal leaves the whole buffer as it was. Where `as` narrows
// a number, it is proved to lose nothing; `try_from` would have an arm that is never taken. Counts and records are two lists, as
// `file_of` has them.
#![tactic(auto)]

ghost use Rattle.std.specs.Prelude.{◌≡◌, cond, not, ◌||◌, ◌*◌, ltb, eqb, length, IfOk};
ghost use Rattle.tracefile.specs.File.{record_size};
ghost use Rattle.writer.specs.Written.{Outcome, refused, wrote, told, and_then, sum, over, bad_record};
ghost use Rattle.writer.specs.Written.{write, file_of, buffer_after};
ghost use Rattle.writer.specs.Decided.{Decided};

use records::{Limits, read_record};

// Why nothing was written. The place is 0 where a case carries none. It is no `tracefile::Refusal`: the places are others, and
// a file is never refused for room.
#[derive(Clone, Copy, Debug, PartialEq, Eq)]
pub enum Unwritten {
    Tablets,
    Values,
    Bodies,
    Counts,
    BadRecord(u32),
    Room,
}

// Whether some count is over 256, or the record bytes are not 12 times the sum of the counts. Each count is tested before
// its records are taken off the bytes.
#[tactic(auto, using(crate::proofs::Counts::counts_steps))]
fn miscounted(counts: &[u32], bytes: usize) -> bool
    ensures { result ≡ (over counts.now || not (eqb bytes (record_size * sum counts.now))) }
{
    let mut left = bytes;
    for &count in counts {
        if 256 < count {
            return true;
        }
        let body = 12 * (count as usize);
        if left < body {
            return true;
        }
        left -= body;
    }
    left != 0
}

// The length of a file, or 9 where the buffer is short of it.
fn fitted(size: u32, room: usize) -> Result<u32, Unwritten>
    ensures { told result ≡ cond (ltb room size) (refused 9 0) (wrote size) }
{
    if room < size as usize {
        return Err(Unwritten::Room);
    }
    Ok(size)
}

// Refusal 7 at the first of so many records that breaks its row. `check_records` of `tracefile` has such a loop over the bodies of a
// file: each is proved against its own definition, `bad_record` here and `in_body` there.
#[tactic(auto, using(crate::proofs::Rows::rows_steps))]
fn first_bad(limits: Limits, records: &[u8], all: u16) -> Result<(), Unwritten>
    ensures { (good : Outcome) → and_then result good ≡ bad_record limits.tablets limits.values records.now all 0 good }
{
    for i in 0..all {
        let at = 12 * u32::from(i);
        if !limits.keep(read_record(records, at as usize)) {
            return Err(Unwritten::BadRecord(at));
        }
    }
    Ok(())
}

// What writing comes to: each refusal in its order, or the length of the file. The ranges are compared one by one: with `contains`
// the proof did not close.
#[tactic(auto, unfolding(crate::specs::Written::write, crate::specs::Written::rows_then_room))]
fn decide(n: u32, v: u32, counts: &[u32], records: &[u8], room: usize) -> Result<u32, Unwritten>
    ensures told { told result ≡ write n v counts.now records.now room }
    ensures decided { IfOk result (λ size. Decided n v counts.now records.now room size) }
{
    if n < 1 || 8 < n {
        return Err(Unwritten::Tablets);
    }
    if v < 1 || 64 < v {
        return Err(Unwritten::Values);
    }
    let k = counts.len();
    if k < 1 || 16 < k {
        return Err(Unwritten::Bodies);
    }
    let bytes = records.len();
    if miscounted(counts, bytes) {
        return Err(Unwritten::Counts);
    }
    let limits = Limits {
        tablets: n as u8,
        values: v as u8,
    };
    first_bad(limits, records, (bytes / 12) as u16)?;
    fitted((4 + 4 * k + bytes) as u32, room)
}

// Writes the file of n tablets, v values, bodies of these counts and all their records, back to back. It gives the file's
// length. n and v are any numbers and no `Limits`, since one that does not fit a byte is refused by its value.
#[tactic(auto, using(crate::proofs::Decided::refused_keeps, crate::proofs::Buffer::entering))]
pub fn write_file(
    n: u32,
    v: u32,
    counts: &[u32],
    records: &[u8],
    buffer: &mut [u8],
) -> Result<u32, Unwritten>
    ensures result { told result ≡ write n v counts.now records.now (length buffer.old) }
    ensures buffer { buffer.new ≡ buffer_after (file_of n v counts.now records.now) buffer.old (told result) }
{
    let length = decide(n, v, counts, records, buffer.len())?;
    let k = counts.len();
    buffer[..4].copy_from_slice(&[1, n as u8, v as u8, k as u8]);
    let start = 4 + 4 * k;
    let mut at = start as u32;
    for (i, &count) in counts.iter().enumerate() {
        let entry = 4 + 4 * i;
        buffer[entry..entry + 2].copy_from_slice(&(at as u16).to_le_bytes());
        buffer[entry + 2..entry + 4].copy_from_slice(&(count as u16).to_le_bytes());
        at += 12 * count;
    }
    buffer[start..length as usize].copy_from_slice(records);
    Ok(length)
}
