// The separation measure by columns.
ghost use Rattle.std.specs.Prelude.{◌≡◌, ℕ, ◌^◌, ◌<◌, length, get_or, Ok};
ghost use Rattle.laws.specs.Inner.Allowance.{within};
ghost use Rattle.drawing.specs.Refusals.{first_of, scratch_after};
ghost use Rattle.drawing.specs.Entries as Entries;
ghost use Rattle.drawing.specs.Entries.{lent_segments, segments};
ghost use Rattle.drawing.specs.Held.{SegmentsHeld};
ghost use Rattle.separation.specs.Conditions.{separation_conditions};
ghost use Rattle.separation.specs.Walk.{walk_all};
ghost use Rattle.separation.specs.Answer.{separation_answer};
ghost use Rattle.separation.specs.Inner.States.{swept_of};

use crate::along::sweep_along;
use drawing::{Refusal, Segments, clear};
use rows::segments_to_sweep;
use separation::{Found, ParallelSeparation, answer_of, check_separation, combined, too_few};

// The walk over a fit drawing: horizontal segments first, then vertical ones with the remaining visits.
// Where the allowance is below the least that the segments cost, it counts as spent before any table is made.
fn walk_segments(
    segments: &Segments<'_>,
    allowance: usize,
    scratch: &mut [u64],
) -> Result<Found, Refusal>
    requires passed { first_of (separation_conditions (lent_segments segments.now) (length scratch.old)) ≡ Ok tt }
    requires held { SegmentsHeld (lent_segments segments.now) }
    requires nets { (i : ℕ) → get_or (lent_segments segments.now).net i 0 < 2 ^ 32 }
    ensures { result ≡ swept_of (within allowance (walk_all (Entries.segments (lent_segments segments.now)))) }
{
    if too_few(allowance, segments_to_sweep(segments.orientation)) {
        return Err(Refusal::WorkLimitExceeded);
    }
    let across = sweep_along(scratch, 1, segments, allowance)?;
    let down = sweep_along(scratch, 0, segments, across.remaining)?;
    Ok(combined(across, down))
}

pub fn measure_parallel_separation_bounded(
    segments: &Segments<'_>,
    allowance: usize,
    scratch: &mut [u64],
) -> Result<ParallelSeparation, Refusal>
    ensures { let lent = lent_segments segments.now in
        let words = length scratch.old in
        let refusal = first_of (separation_conditions lent words) in
        (result ≡ separation_answer lent allowance words)
        × (scratch.new ≡ scratch_after refusal scratch.old)
        × (refusal ≡ Ok tt → SegmentsHeld lent) }
{
    check_separation(segments, scratch.len())?;
    segments.held();
    let swept = walk_segments(segments, allowance, scratch);
    clear(scratch);
    answer_of(swept, allowance)
}
