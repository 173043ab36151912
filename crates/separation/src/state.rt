// The state of the sweep, and what changes it.
ghost use Rattle.std.specs.Prelude.{◌≡◌};
ghost use Rattle.floats.specs.Values.{gap_of};
ghost use Rattle.separation.specs.Walk.{own_line};
ghost use Rattle.separation.specs.Inner.States.{met_by, at_start, gap_met, found_in};

use crate::found::Found;
use drawing::{gap_of_float, least_with, no_gap};
use floats::absolute;

// The figures so far, and the remaining visits. Each least gap is a NaN where there is none yet (`no_gap`).
#[derive(Clone, Copy)]
pub struct Sweeping {
    pub minimum: f64,
    pub minimum_positive: f64,
    pub remaining: usize,
}

impl Sweeping {
    // The state before the first event: no gap yet, and the whole allowance remaining.
    pub fn at_start(allowance: usize) -> Sweeping
        ensures { result ≡ at_start allowance }
    {
        Sweeping {
            minimum: no_gap(),
            minimum_positive: no_gap(),
            remaining: allowance,
        }
    }

    // Another net on the segment's own line makes the least gap 0. `remaining` is the number of visits that remain after `has_other_at`.
    pub fn with_own_line(self, own: bool, remaining: usize) -> Sweeping
        ensures figures { met_by result ≡ own_line own (met_by self) }
        ensures remaining { result.remaining ≡ remaining }
    {
        let minimum = if own { 0.0 } else { self.minimum };
        Sweeping {
            minimum,
            remaining,
            ..self
        }
    }

    // The gap to the line that a search found joins both figures: it is another line than the segment's own, so that the gap is not 0.
    pub fn with_other_line(self, there: f64, here: f64, remaining: usize) -> Sweeping
        ensures { result ≡ gap_met (gap_of there here) remaining self }
    {
        let gap = absolute(there - here);
        let minimum = least_with(self.minimum, gap);
        let minimum_positive = least_with(self.minimum_positive, gap);
        Sweeping {
            minimum,
            minimum_positive,
            remaining,
        }
    }
}

// What the sweep found once its last event is handled.
impl From<Sweeping> for Found {
    ghost from_gives = { λ state found. found ≡ found_in state };

    fn from(state: Sweeping) -> Found {
        let minimum = gap_of_float(state.minimum);
        let minimum_positive = gap_of_float(state.minimum_positive);
        Found {
            minimum,
            minimum_positive,
            remaining: state.remaining,
        }
    }
}
