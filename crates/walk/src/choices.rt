// The choices of a point as one set of numbers, and what each comes to. A choice is the number of its bit in that set, as
// `event_of` takes it, and no enum: the lowest choice is found by one instruction.
ghost use Rattle.std.specs.Prelude.{◌≡◌, cond, eqb};
ghost use Rattle.model.specs.Model.{then};
ghost use Rattle.records.specs.Records.{record_at, observation_of};
ghost use Rattle.walk.specs.Choices.{event_of, Possible};
ghost use Rattle.walk.specs.Steps.{event_bytes};

use model::{Kind, Observation, State};

// What the body's first record says: the next observation. The contracts here name it in the words of `records`, of which each is
// defined.
fn next_observation(body: &[u8]) -> Observation
    ensures { result ≡ observation_of (record_at body.now 0) }
{
    records::observation(records::read_record(body, 0))
}

// The set of possible choices where the body's first record is the next observation.
pub fn possible(n: u8, body: &[u8], state: &State) -> u64
    ensures { Possible n state.now (observation_of (record_at body.now 0)) result }
{
    let tablets = events::first(n).fresh;
    let ups = state.dirty & tablets;
    let downs = ((state.fresh | state.dirty) ^ 255) & tablets;
    let hidden = (u64::from(ups) << 1) | (u64::from(downs) << 9);
    if events::may_observe(n, *state, next_observation(body)) {
        hidden | 1
    } else {
        hidden
    }
}

// The state after a choice.
#[tactic(auto, using(crate::proofs::Events::is_observed, crate::proofs::Events::is_up, crate::proofs::Events::is_down))]
pub fn after(body: &[u8], state: &State, pick: u8) -> State
    ensures { result ≡ then state.now (event_of pick (observation_of (record_at body.now 0))) }
{
    match pick {
        0 => events::then_observe(*state, next_observation(body)),
        1..=8 => events::then_up(*state, pick),
        _ => events::then_down(*state, pick - 8),
    }
}

// The bytes of the body that a choice uses up.
pub fn used(pick: u8) -> usize
    ensures { result ≡ cond (eqb pick 0) 12 0 }
{
    if pick == 0 { 12 } else { 0 }
}

// A choice's event as two bytes: its kind and its tablet, which is 0 where it has none.
#[tactic(auto, using(crate::proofs::Events::is_observed, crate::proofs::Events::is_up, crate::proofs::Events::is_down))]
pub fn event_at(body: &[u8], pick: u8) -> [u8; 2]
    ensures { result ≡ event_bytes (event_of pick (observation_of (record_at body.now 0))) }
{
    match pick {
        0 => match next_observation(body) {
            Observation::Read { tablet, .. } => [u8::from(Kind::Read), tablet],
            Observation::Write { tablet, .. } => [u8::from(Kind::Write), tablet],
            Observation::Stabilize { .. } => [u8::from(Kind::Stabilize), 0],
            Observation::Failed => [u8::from(Kind::Failed), 0],
        },
        1..=8 => [u8::from(Kind::Up), pick],
        _ => [u8::from(Kind::Down), pick - 8],
    }
}
