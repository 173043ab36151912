// The answer of a call whose checks passed, from where its walk ended.
ghost use Rattle.separation.specs.Inner.States.{Answers};

use crate::found::Found;
use crate::report::ParallelSeparation;
use drawing::{Refusal, visits_used};

pub fn answer_of(
    swept: Result<Found, Refusal>,
    allowance: usize,
) -> Result<ParallelSeparation, Refusal>
    ensures { Answers swept allowance result }
{
    let found = swept?;
    let visits = visits_used(allowance, found.remaining);
    Ok(ParallelSeparation {
        minimum: found.minimum,
        minimum_positive: found.minimum_positive,
        visits,
    })
}
