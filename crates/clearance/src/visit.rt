// The state of a walk, and the visit of one pair of a segment and a node.
ghost use Rattle.std.specs.Prelude.{◌≡◌, ◌+◌, ◌^◌, ◌<◌, IfErr};
ghost use Rattle.laws.specs.Charged.{free, visit};
ghost use Rattle.laws.specs.Inner.Allowance.{within};
ghost use Rattle.drawing.specs.declared.refusal.Refusal.TheVariants.{WorkLimitExceeded};
ghost use Rattle.drawing.specs.Inner.LeastFloats.{Number};
ghost use Rattle.clearance.specs.Walk.{with_pair};
ghost use Rattle.clearance.specs.Inner.State.{so_far, outcome_of, at_start};

use drawing::{Refusal, least_with, no_gap};

// The figures so far, and the remaining visits. The least distance is a NaN where there is none yet (`no_gap`).
#[derive(Clone, Copy)]
pub struct Walking {
    pub violations: usize,
    pub least: f64,
    pub remaining: usize,
}

// The state before the first walk: no pair measured, and the whole allowance remaining.
pub fn at_start(allowance: usize) -> Walking
    ensures { result ≡ at_start allowance }
{
    Walking {
        violations: 0,
        least: no_gap(),
        remaining: allowance,
    }
}

// The visit of a pair at the given distance: charged first, then counted unless the pair is exempt (SCOPE 5.7). The walk passes distances of boxes, which are numbers, and states whose violations and remaining visits together fit a word, so no count wraps.
pub fn visit_pair(
    exempt: bool,
    distance: f64,
    threshold: f64,
    state: Walking,
) -> Result<Walking, Refusal>
    ensures outcome { Number distance → state.violations + state.remaining < 2 ^ 64 → outcome_of result ≡ within state.remaining (visit (free (with_pair exempt threshold distance (so_far state)))) }
    ensures refusal { IfErr result (λ r. r ≡ WorkLimitExceeded) }
{
    if state.remaining == 0 {
        return Err(Refusal::WorkLimitExceeded);
    }
    let remaining = state.remaining - 1;
    let charged = Walking {
        violations: state.violations,
        least: state.least,
        remaining,
    };
    if exempt {
        return Ok(charged);
    }
    let least = least_with(state.least, distance);
    if distance < threshold {
        let violations = state.violations.wrapping_add(1);
        Ok(Walking {
            violations,
            least,
            remaining,
        })
    } else {
        Ok(Walking {
            violations: state.violations,
            least,
            remaining,
        })
    }
}
