// One event of the sweep over an orientation's wires, within the remaining visits.
ghost use Rattle.std.specs.Prelude.{◌≡◌, not, ◌+◌, ◌*◌, ◌^◌, ◌≤◌, ◌<◌, eqb, length};
ghost use Rattle.laws.specs.Lists.{bit};
ghost use Rattle.density_call.specs.Inner.Sweeping.{passed_to, started_by, ended_by, activated, deactivated, AtEvent, Handles};

use crate::meet::{Meeting, meet};
use bitset::{insert, remove};
use drawing::Refusal;
use floats::float_of_key;

// The Rust's variables, and the remaining visits. The least gap is a NaN where there is none yet (`no_gap`).
#[derive(Clone, Copy)]
pub(crate) struct Sweeping {
    pub congested_active: usize,
    pub congested_length: f64,
    pub close_pairs: usize,
    pub pair_overlap_length: f64,
    pub peak_close_neighbors: usize,
    pub minimum_positive: f64,
    pub previous: f64,
    pub remaining: usize,
}

// The lengths up to an event's coordinate join the sums.
fn pass_to(state: Sweeping, coordinate: f64) -> Sweeping
    requires congested_active_bound { state.congested_active ≤ 2 ^ 53 }
    requires close_pairs_bound { state.close_pairs ≤ 2 ^ 53 }
    ensures { result ≡ passed_to state coordinate }
{
    let active = state.congested_active as f64;
    let pairs = state.close_pairs as f64;
    let along = coordinate - state.previous;
    Sweeping {
        congested_length: state.congested_length + active * along,
        pair_overlap_length: state.pair_overlap_length + pairs * along,
        previous: coordinate,
        ..state
    }
}

// A start: the wire itself is congested where it has close neighbors, and so may be neighbors that were not.
fn with_start(state: Sweeping, meeting: Meeting) -> Sweeping
    requires active_fits { state.congested_active + meeting.changed + 1 < 2 ^ 64 }
    requires pairs_fit { state.close_pairs + meeting.neighbors < 2 ^ 64 }
    ensures { result ≡ started_by state meeting }
{
    let neighbors = meeting.neighbors;
    Sweeping {
        congested_active: state.congested_active + usize::from(neighbors != 0) + meeting.changed,
        close_pairs: state.close_pairs + neighbors,
        peak_close_neighbors: state
            .peak_close_neighbors
            .max(meeting.highest.max(neighbors)),
        minimum_positive: meeting.least,
        remaining: meeting.remaining,
        ..state
    }
}

// An end of a wire whose own count is `count`: it is no longer congested, nor are neighbors that had only this one.
fn with_end(state: Sweeping, count: usize, meeting: Meeting) -> Sweeping
    requires active_suffices { bit (not (eqb «count» 0)) + meeting.changed ≤ state.congested_active }
    requires pairs_suffice { meeting.neighbors ≤ state.close_pairs }
    ensures { result ≡ ended_by state «count» meeting }
{
    Sweeping {
        congested_active: state.congested_active - usize::from(count != 0) - meeting.changed,
        close_pairs: state.close_pairs - meeting.neighbors,
        minimum_positive: meeting.least,
        remaining: meeting.remaining,
        ..state
    }
}

// Wire j is active from now on, with this number of close neighbors.
fn activate(s: &mut [u64], n: usize, j: usize, neighbors: usize)
    requires j_lt_n { j < n }
    requires n_bound { n ≤ 4096 }
    requires columns_fit { 10 * n ≤ length s.old }
    ensures { s.new ≡ activated n j neighbors s.old }
{
    s[8 * n + j] = neighbors as u64;
    insert(&mut s[9 * n..], j);
}

// Wire j is no longer active.
fn deactivate(s: &mut [u64], n: usize, j: usize)
    requires j_lt_n { j < n }
    requires n_bound { n ≤ 4096 }
    requires columns_fit { 10 * n ≤ length s.old }
    ensures { s.new ≡ deactivated n j s.old }
{
    s[8 * n + j] = 0;
    remove(&mut s[9 * n..], j);
}

// Wire j starts: event n + j.
// A start and an end are two functions, and so are the parts of each: one for both, with a flag, would choose at each step, since they read other columns, raise or lower the counts, and mark the wire after the meeting in opposite ways.
pub(crate) fn start_event(
    s: &mut [u64],
    n: usize,
    j: usize,
    state: Sweeping,
) -> Result<Sweeping, Refusal>
    requires { AtEvent s.old n (n + j) state }
    ensures { Handles s.old s.new n (n + j) state result }
{
    let coordinate = float_of_key(s[3 * n + j]);
    let passed = pass_to(state, coordinate);
    let meeting = meet(s, n, j, true, passed.minimum_positive, passed.remaining)?;
    activate(s, n, j, meeting.neighbors);
    Ok(with_start(passed, meeting))
}

// Wire j ends: event j.
pub(crate) fn end_event(
    s: &mut [u64],
    n: usize,
    j: usize,
    state: Sweeping,
) -> Result<Sweeping, Refusal>
    requires at_event { AtEvent s.old n j state }
    requires j_lt_n { j < n }
    ensures { Handles s.old s.new n j state result }
{
    let coordinate = float_of_key(s[2 * n + j]);
    let count = s[8 * n + j] as usize;
    let passed = pass_to(state, coordinate);
    let meeting = meet(s, n, j, false, passed.minimum_positive, passed.remaining)?;
    deactivate(s, n, j);
    Ok(with_end(passed, count, meeting))
}
