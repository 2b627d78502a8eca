// One tablet's part of a state, and what is asked or done of all tablets. A number that is no tablet's has the local value
// 0 and no marks.
ghost use Rattle.std.specs.Prelude.{◌≡◌, set};
ghost use Rattle.marks.specs.Sets.{only};
ghost use Rattle.model.specs.Model.{seats, seat, is_tablet, value_at, mark_at, fresh_and_clean, all_fresh_and_clean};

// How many tablets there are: no more than 8.
#[tactic(auto, unfolding(model::specs::Model::seats))]
pub fn seats_of(n: u8) -> u8
    ensures { result ≡ seats n }
{
    n.min(8)
}

// The bit and the place that stand for a tablet, and 255 where there is none, as `seat` has it.
#[tactic(auto, unfolding(model::specs::Model::seat))]
pub fn seat_of(tablet: u8) -> u8
    ensures { result ≡ seat tablet }
{
    if tablet == 0 { 255 } else { tablet - 1 }
}

// Whether the number is a tablet's.
#[tactic(auto, unfolding(model::specs::Model::is_tablet))]
pub fn tablet_of(n: u8, tablet: u8) -> bool
    ensures { result ≡ is_tablet n tablet }
{
    (1..=seats_of(n)).contains(&tablet)
}

// The local value of a tablet, and 0 where there is none, as `value_at` has it.
#[tactic(auto, unfolding(model::specs::Model::value_at))]
pub fn local_value(local: [u8; 8], tablet: u8) -> u8
    ensures { result ≡ value_at local tablet }
{
    let at = usize::from(seat_of(tablet));
    local.get(at).copied().unwrap_or(0)
}

// The local values with a tablet's put in its place. A number that is no tablet's changes nothing. The place is tested by hand:
// with `get_mut` the proof stays open.
pub fn stored(local: [u8; 8], tablet: u8, value: u8) -> [u8; 8]
    ensures { result ≡ set local (seat tablet) value }
{
    let at = usize::from(seat_of(tablet));
    let mut values = local;
    if at < 8 {
        values[at] = value;
    }
    values
}

// Whether a tablet has its mark in a set.
#[tactic(auto, unfolding(model::specs::Model::mark_at))]
pub fn marked(set: u8, tablet: u8) -> bool
    ensures { result ≡ mark_at set tablet }
{
    marks::has(set, seat_of(tablet))
}

// The fresh marks once every tablet but this one has become stale, one tablet after the other.
pub fn others_stale(fresh: u8, tablet: u8) -> u8
    ensures { result ≡ only fresh (seat tablet) }
{
    let keep = seat_of(tablet);
    let mut left = fresh;
    for other in 0..8u8 {
        if other != keep {
            left = marks::remove(left, other);
        }
    }
    left
}

// Whether a tablet is fresh and clean. The two sets of marks stay apart, as `fresh_and_clean` has them.
#[tactic(auto, unfolding(model::specs::Model::fresh_and_clean))]
fn settled(fresh: u8, dirty: u8, tablet: u8) -> bool
    ensures { result ≡ fresh_and_clean fresh dirty tablet }
{
    marked(fresh, tablet) & !marked(dirty, tablet)
}

// Whether every tablet is fresh and clean, asked of one tablet after the other up to the first that is not. The library's lemmas
// on chains are for a range without its end.
pub fn all_settled(n: u8, fresh: u8, dirty: u8) -> bool
    ensures { result ≡ all_fresh_and_clean n fresh dirty }
{
    (1..seats_of(n) + 1).all(|tablet| settled(fresh, dirty, tablet))
}
