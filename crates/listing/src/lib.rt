// The reader that holds a body and stands at its next record. Its functions are thin: the work is done over a plain slice and
// a number. They are no methods, since a method `next` would hide the iterator's.
#![tactic(auto)]

ghost use Rattle.std.specs.Prelude.{◌≡◌};
ghost use Rattle.std.specs.Iterator.{item_count};
ghost use Rattle.std.specs.Iterator.Runs.{YieldsInOrder};
ghost use Rattle.records.specs.Records.{next_record};
ghost use Rattle.listing.specs.Positions.{position, left, Gives};

use records::Record;

#[derive(Clone, Copy, Debug, PartialEq, Eq)]
pub struct Listing<'a> {
    pub body: &'a [u8],
    pub at: usize,
}

// A reader on a body, at its first record. A `for` over it, as over any reader, gives the records that it has left.
#[tactic(auto, using(crate::proofs::Left::in_order))]
pub fn start<'a>(body: &'a [u8]) -> Listing<'a>
    ensures reader { (result.body ≡ body.entry) × (result.at ≡ 0) }
    ensures in_order { YieldsInOrder Gives left }
{
    Listing { body, at: 0 }
}

// The next record with the position after it, or the end with the position as it is.
pub fn next<'a>(listing: Listing<'a>) -> (Option<Record>, usize)
    ensures { result ≡ next_record listing.entry.body.now listing.entry.at }
{
    records::next(listing.body, listing.at)
}

// The position after the record at a position: 12 bytes on, or the same at the end.
pub fn position_after(body: &[u8], at: usize) -> usize
    ensures { result ≡ position (next_record body.now at) }
{
    records::next(body, at).1
}

// The reader after its next record; at the end it stays.
pub fn advance<'a>(listing: Listing<'a>) -> Listing<'a>
    ensures { (result.body ≡ listing.entry.body) × (result.at ≡ position (next_record listing.entry.body.now listing.entry.at)) }
{
    Listing {
        at: position_after(listing.body, listing.at),
        ..listing
    }
}

// What a reader that stands at a position of a body gives: for callers that hold the body and the position themselves.
pub fn step_from(body: &[u8], at: usize) -> (Option<Record>, usize)
    ensures { result ≡ next_record body.now at }
{
    next(Listing { body, at })
}

// The records of the body from the reader's position on, in order, and then the end for ever.
impl Iterator for Listing<'_> {
    type Item = Record;

    ghost next_gives = { Gives };

    ghost remaining = { item_count left };

    #[tactic(auto, using(crate::proofs::Left::first_left, crate::proofs::Left::nearer))]
    fn next(&mut self) -> Option<Record> {
        let (record, after) = records::next(self.body, self.at);
        self.at = after;
        record
    }
}
