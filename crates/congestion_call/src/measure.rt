// The congestion profile and the congestion by columns, from the density profile.
ghost use Rattle.std.specs.Prelude.{◌≡◌, length, Ok};
ghost use Rattle.drawing.specs.Refusals.{first_of, scratch_after};
ghost use Rattle.drawing.specs.Entries.{lent_segments};
ghost use Rattle.drawing.specs.Held.{Binary64, SegmentsHeld};
ghost use Rattle.congestion.specs.Conditions.{congestion_conditions};
ghost use Rattle.congestion.specs.Answer.{profile_answer, congestion_answer};

use congestion::{CongestionReport, without_density};
use density_call::measure_parallel_density_profile_bounded;
use drawing::{Refusal, Segments};

pub fn measure_parallel_congestion_profile_bounded(
    segments: &Segments<'_>,
    cutoff: f64,
    allowance: usize,
    scratch: &mut [u64],
) -> Result<CongestionReport, Refusal>
    ensures { let lent = lent_segments segments.now in
        let words = length scratch.old in
        let refusal = first_of (congestion_conditions lent cutoff words) in
        (result ≡ profile_answer lent cutoff allowance words)
        × (scratch.new ≡ scratch_after refusal scratch.old)
        × (refusal ≡ Ok tt → SegmentsHeld lent × Binary64 cutoff) }
{
    let answer = measure_parallel_density_profile_bounded(segments, cutoff, allowance, scratch);
    without_density(answer)
}

// SCOPE 6.2: no drawing takes 2^64 - 1 visits, so that this allowance always reaches.
pub fn measure_parallel_congestion(
    segments: &Segments<'_>,
    cutoff: f64,
    scratch: &mut [u64],
) -> Result<CongestionReport, Refusal>
    ensures { let lent = lent_segments segments.now in
        let words = length scratch.old in
        let refusal = first_of (congestion_conditions lent cutoff words) in
        (result ≡ congestion_answer lent cutoff words)
        × (scratch.new ≡ scratch_after refusal scratch.old)
        × (refusal ≡ Ok tt → SegmentsHeld lent × Binary64 cutoff) }
{
    measure_parallel_density_profile_bounded(segments, cutoff, usize::MAX, scratch)
}
