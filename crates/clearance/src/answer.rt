// What a call answers, from what its walks returned.
ghost use Rattle.clearance.specs.Inner.State.{Answers};

use crate::report::EdgeNodeClearance;
use crate::visit::Walking;
use drawing::{Refusal, gap_of_float, visits_used};

pub fn answer_of(
    walked: Result<Walking, Refusal>,
    allowance: usize,
) -> Result<EdgeNodeClearance, Refusal>
    ensures { Answers walked allowance result }
{
    let state = walked?;
    let least = gap_of_float(state.least);
    let visits = visits_used(allowance, state.remaining);
    let report = EdgeNodeClearance {
        minimum_clearance: least,
        violations: state.violations,
        visits,
    };
    Ok(report)
}
