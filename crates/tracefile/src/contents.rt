// The three checks of a file, each total by itself: its head, its contents, and its records. Where `as` narrows a number, it is
// proved to lose nothing; `try_from` would have an arm that is never taken.
ghost use Rattle.std.specs.Prelude.{◌≡◌};
ghost use Rattle.records.specs.Bytes.{byte, number};
ghost use Rattle.tracefile.specs.Refusals.{told};
ghost use Rattle.tracefile.specs.File.{entry, tablets_in, values_in, bodies_in, head, contents, records};

use crate::Refusal;
use records::{Limits, read_record};

// The byte at a place, and 0 past the end, as `byte` has it.
pub fn byte_at(file: &[u8], at: usize) -> u8
    ensures { result ≡ byte file.now at }
{
    file.get(at).copied().unwrap_or(0)
}

// The number in the two bytes at a place, least byte first.
#[tactic(auto, unfolding(records::specs::Bytes::number))]
pub fn number2(file: &[u8], at: u32) -> u16
    ensures { result ≡ number file.now at 2 }
{
    let low = at as usize;
    u16::from_le_bytes([byte_at(file, low), byte_at(file, low + 1)])
}

// The place of an entry of the contents. The contents end where the entry after the last would stand.
fn entry_at(i: u8) -> u32
    ensures { result ≡ entry i }
{
    4 + 4 * u32::from(i)
}

// What the head of a file says: how many tablets and values it speaks of, and how many bodies it has.
#[derive(Clone, Copy, Debug, PartialEq, Eq)]
pub struct Head {
    pub limits: Limits,
    pub bodies: u8,
}

impl Head {
    pub fn of(file: &[u8]) -> Head
        ensures tablets { result.limits.tablets ≡ tablets_in file.now }
        ensures values { result.limits.values ≡ values_in file.now }
        ensures bodies { result.bodies ≡ bodies_in file.now }
    {
        Head {
            limits: Limits {
                tablets: byte_at(file, 1),
                values: byte_at(file, 2),
            },
            bodies: byte_at(file, 3),
        }
    }
}

// Refusals 1 to 5. The ranges are compared one by one: with `contains` the check does not find the proof within half its limits.
#[tactic(auto, unfolding(crate::specs::File::head))]
pub fn check_head(file: &[u8]) -> Result<(), Refusal>
    ensures { told result ≡ head file.now }
{
    if file.len() < 4 || 65535 < file.len() {
        return Err(Refusal::Length);
    }
    if byte_at(file, 0) != 1 {
        return Err(Refusal::Edition);
    }
    let Head { limits, bodies } = Head::of(file);
    if limits.tablets < 1 || 8 < limits.tablets {
        return Err(Refusal::Tablets);
    }
    if limits.values < 1 || 64 < limits.values {
        return Err(Refusal::Values);
    }
    if bodies < 1 || 16 < bodies {
        return Err(Refusal::Bodies);
    }
    Ok(())
}

// Refusal 6: each entry has the offset where the body before it ends, a count of at most 256 and a body within the file,
// and the last body ends the file.
#[tactic(auto, using(crate::proofs::Loops::contents_steps), unfolding(crate::specs::File::contents))]
pub fn check_contents(file: &[u8]) -> Result<(), Refusal>
    ensures { told result ≡ contents file.now }
{
    let bodies = Head::of(file).bodies;
    let mut at = entry_at(bodies);
    if file.len() < at as usize {
        return Err(Refusal::Contents(file.len() as u32));
    }
    for i in 0..bodies {
        let entry = entry_at(i);
        let count = u32::from(number2(file, entry + 2));
        let next = at + 12 * count;
        let offset = u32::from(number2(file, entry));
        if offset != at || 256 < count || file.len() < next as usize {
            return Err(Refusal::Contents(entry));
        }
        at = next;
    }
    if (at as usize) < file.len() {
        return Err(Refusal::Contents(at));
    }
    Ok(())
}

// Refusal 7: the first bad record in file order, over all bodies. The writer has such a loop over records alone: each is proved
// against its own definition, `in_body` here and `bad_record` there.
#[tactic(auto, using(crate::proofs::Loops::records_steps), unfolding(crate::specs::File::records))]
pub fn check_records(file: &[u8]) -> Result<(), Refusal>
    ensures { told result ≡ records file.now }
{
    let Head { limits, bodies } = Head::of(file);
    let mut at = entry_at(bodies);
    'bodies: {
        for body in 0..bodies {
            let count = number2(file, entry_at(body) + 2);
            for record in 0..count {
                let place = at + 12 * u32::from(record);
                if !limits.keep(read_record(file, place as usize)) {
                    break 'bodies Err(Refusal::BadRecord(place));
                }
            }
            at += 12 * u32::from(count);
        }
        Ok(())
    }
}
