// How much room a walk may need: 2·(T + n·W) bytes for T observations with W writes on n tablets.
ghost use Rattle.std.specs.Prelude.{◌≡◌, ◌+◌, ◌*◌, ltb};
ghost use Rattle.model.specs.Model.{writes};
ghost use Rattle.walk.specs.Rooms.{is_write};
ghost use Rattle.records.specs.Records.{record_at, observation_of, observations};

use model::Observation;
use records::Record;

// Whether a record's bytes say a WRITE.
fn is_write(bytes: &[u8; 12]) -> bool
    ensures { result ≡ is_write (observation_of (record_at bytes.now 0)) }
{
    matches!(
        records::observation(Record::from(bytes)),
        Observation::Write { .. }
    )
}

// How many of a body's observations are writes.
pub fn count_writes(body: &[u8]) -> usize
    ensures { result ≡ writes (observations body.now) }
{
    let (whole, _) = body.as_chunks::<12>();
    whole.iter().filter(|bytes| is_write(bytes)).count()
}

// Whether a room is short of what t observations with w writes on n tablets may need.
pub fn short_of(n: u8, t: usize, w: usize, room: usize) -> bool
    ensures { result ≡ ltb room (2 * (t + n * w)) }
{
    let pairs = room / 2;
    if pairs < t {
        return true;
    }
    if w == 0 {
        return false;
    }
    (pairs - t) / w < usize::from(n)
}
