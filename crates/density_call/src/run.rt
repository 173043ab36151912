// The sweep over all events of one orientation. The scratch holds the tables of its n wires (8 n words) and after them the words that the sweep changes.
// `separation_call` has a sweep of its own: the two share the order of events and nothing else, neither the figures, nor the tables, nor what holds between two events.
ghost use Rattle.std.specs.Prelude.{◌≡◌};
ghost use Rattle.laws.specs.Inner.Allowance.{within};
ghost use Rattle.congestion.specs.Walk.{sweep};
ghost use Rattle.density_call.specs.Inner.Sweeping.{AtEvent, Handles, AtFirst, swept_of};

use crate::sweep::{Sweeping, end_event, start_event};
use congestion::Found;
use drawing::{Refusal, gap_of_float, no_gap};
use floats::float_of_key;

// Event e: below n it is the end of wire e, else the start of wire e - n.
fn handle_event(s: &mut [u64], n: usize, e: usize, state: Sweeping) -> Result<Sweeping, Refusal>
    requires { AtEvent s.old n e state }
    ensures { Handles s.old s.new n e state result }
{
    if e < n {
        end_event(s, n, e, state)
    } else {
        start_event(s, n, e - n, state)
    }
}

// The events in order, from no active wire and the coordinate of the first one. The key of event e, be it an end or a start, is word 2 n + e.
pub(crate) fn run_events(s: &mut [u64], n: usize, allowance: usize) -> Result<Found, Refusal>
    requires { AtFirst s.old n }
    ensures { (a : AtFirst s.old n) → result ≡ swept_of (within allowance (sweep a.c a.L)) }
{
    let first = s[0] as usize;
    let mut state = Sweeping {
        congested_active: 0,
        congested_length: 0.0,
        close_pairs: 0,
        pair_overlap_length: 0.0,
        peak_close_neighbors: 0,
        minimum_positive: no_gap(),
        previous: float_of_key(s[2 * n + first]),
        remaining: allowance,
    };
    // By an index: an event writes the same scratch, after the events.
    for q in 0..2 * n {
        let e = s[q] as usize;
        state = handle_event(s, n, e, state)?;
    }
    Ok(Found {
        congested_length: state.congested_length,
        pair_overlap_length: state.pair_overlap_length,
        peak_close_neighbors: state.peak_close_neighbors,
        minimum_positive: gap_of_float(state.minimum_positive),
        remaining: state.remaining,
    })
}
