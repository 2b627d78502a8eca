// When each event may happen, and what then holds, row by row of the table of events, from the first state on. Every
// contract cites the table, the definitions `may` and `then` of model/specs/Model.antt. The number of tablets stays beside
// the state and not in it, since `may n state event` and `then state event` take them apart. The proofs open these two
// definitions; a function on one tablet names the definition that its own proof opens. Tests are joined by `&`, which has
// one path through the code, as the table has one line.
#![tactic(auto, unfolding(model::specs::Model::may, model::specs::Model::then))]

mod tablets;

ghost use Rattle.std.specs.Prelude.{◌≡◌};
ghost use Rattle.model.specs.Model.{first_state, may, then};

use crate::tablets::{
    all_settled, local_value, marked, others_stale, seat_of, seats_of, stored, tablet_of,
};
use model::{Event, Observation, State};

// The first state: all values 0, no conflicts, all tablets fresh and clean.
pub fn first(n: u8) -> State
    ensures { result ≡ first_state n }
{
    let count = seats_of(n);
    let fresh = if count < 8 { (1u8 << count) - 1 } else { 255 };
    State {
        conflicts: 0,
        local: [0u8; 8],
        server: 0,
        fresh,
        dirty: 0,
    }
}

// READ at a tablet, which saw a value.
fn may_read(n: u8, state: State, tablet: u8, seen: u8) -> bool
    ensures { result ≡ may n state (Event.Observed (Observation.Read tablet seen)) }
{
    tablet_of(n, tablet) & (local_value(state.local, tablet) == seen)
}

// WRITE at a tablet of a new value, which saw a value.
fn may_write(n: u8, state: State, tablet: u8, new: u8, seen: u8) -> bool
    ensures { result ≡ may n state (Event.Observed (Observation.Write tablet new seen)) }
{
    tablet_of(n, tablet) & ((new < 64) & (local_value(state.local, tablet) == seen))
}

fn then_write(state: State, tablet: u8, new: u8, seen: u8) -> State
    ensures { result ≡ then state (Event.Observed (Observation.Write tablet new seen)) }
{
    State {
        local: stored(state.local, tablet, new),
        dirty: marks::add(state.dirty, seat_of(tablet)),
        ..state
    }
}

// STABILIZE, which found a value at the server and a conflict set.
fn may_stabilize(n: u8, state: State, seen: u8, conflicts: u64) -> bool
    ensures { result ≡ may n state (Event.Observed (Observation.Stabilize seen conflicts)) }
{
    let settled = all_settled(n, state.fresh, state.dirty);
    (state.server == seen) & ((state.conflicts == conflicts) & settled)
}

// Any observation: a row for each kind.
pub fn may_observe(n: u8, state: State, observation: Observation) -> bool
    ensures { result ≡ may n state (Event.Observed observation) }
{
    match observation {
        Observation::Read { tablet, seen } => may_read(n, state, tablet, seen),
        Observation::Write { tablet, new, seen } => may_write(n, state, tablet, new, seen),
        Observation::Stabilize { seen, conflicts } => may_stabilize(n, state, seen, conflicts),
        Observation::Failed => false,
    }
}

pub fn then_observe(state: State, observation: Observation) -> State
    ensures { result ≡ then state (Event.Observed observation) }
{
    match observation {
        Observation::Write { tablet, new, seen } => then_write(state, tablet, new, seen),
        Observation::Read { .. } | Observation::Stabilize { .. } | Observation::Failed => state,
    }
}

// UP at a tablet.
pub fn may_up(n: u8, state: State, tablet: u8) -> bool
    ensures { result ≡ may n state (Event.Up tablet) }
{
    tablet_of(n, tablet) & marked(state.dirty, tablet)
}

pub fn then_up(state: State, tablet: u8) -> State
    ensures { result ≡ then state (Event.Up tablet) }
{
    let value = local_value(state.local, tablet);
    let fresh = marked(state.fresh, tablet);
    let differs = value != state.server;
    let clean = State {
        dirty: marks::remove(state.dirty, seat_of(tablet)),
        ..state
    };
    if fresh & differs {
        State {
            server: value,
            fresh: others_stale(state.fresh, tablet),
            ..clean
        }
    } else if !fresh & (differs & (value != 0)) {
        State {
            conflicts: marks::add(state.conflicts, value),
            ..clean
        }
    } else {
        clean
    }
}

// DOWN at a tablet.
pub fn may_down(n: u8, state: State, tablet: u8) -> bool
    ensures { result ≡ may n state (Event.Down tablet) }
{
    tablet_of(n, tablet) & (!marked(state.fresh, tablet) & !marked(state.dirty, tablet))
}

pub fn then_down(state: State, tablet: u8) -> State
    ensures { result ≡ then state (Event.Down tablet) }
{
    State {
        local: stored(state.local, tablet, state.server),
        fresh: marks::add(state.fresh, seat_of(tablet)),
        ..state
    }
}
