// The density profile by columns.
ghost use Rattle.std.specs.Prelude.{◌≡◌, length, Ok};
ghost use Rattle.laws.specs.Inner.Allowance.{within};
ghost use Rattle.drawing.specs.Refusals.{first_of, scratch_after};
ghost use Rattle.drawing.specs.Entries as Entries;
ghost use Rattle.drawing.specs.Entries.{lent_segments};
ghost use Rattle.drawing.specs.Held.{Binary64, SegmentsHeld};
ghost use Rattle.congestion.specs.Conditions.{congestion_conditions};
ghost use Rattle.congestion.specs.AllPairs.{all_pairs};
ghost use Rattle.congestion.specs.Answer.{density_answer};
ghost use Rattle.density_call.specs.Inner.Measuring.{found_of, combined_of};

use crate::along::{nothing_found, sweep_along};
use congestion::{CongestionReport, Found, answer_of, check_congestion, total_length};
use drawing::{Refusal, Segments, clear, minimum_option};
use rows::segments_to_sweep;

// The figures of both orientations, with the remaining visits of the second sweep.
fn combined(across: Found, down: Found) -> Found
    ensures { result ≡ combined_of across down }
{
    Found {
        congested_length: across.congested_length + down.congested_length,
        pair_overlap_length: across.pair_overlap_length + down.pair_overlap_length,
        peak_close_neighbors: across.peak_close_neighbors.max(down.peak_close_neighbors),
        minimum_positive: minimum_option(across.minimum_positive, down.minimum_positive),
        remaining: down.remaining,
    }
}

// The sweep over a fit drawing: horizontal segments first, then vertical ones with the remaining visits. A cutoff of 0 or less costs nothing.
// Each segment that is swept costs at least one visit. Where the allowance is below that, it counts as spent before any table is made.
fn walk_segments(
    segments: &Segments<'_>,
    cutoff: f64,
    allowance: usize,
    scratch: &mut [u64],
) -> Result<Found, Refusal>
    requires { first_of (congestion_conditions (lent_segments segments.now) cutoff (length scratch.old)) ≡ Ok tt }
    ensures { result ≡ found_of (within allowance (all_pairs cutoff (Entries.segments (lent_segments segments.now)))) }
{
    if cutoff <= 0.0 {
        return Ok(nothing_found(allowance));
    }
    segments.held();
    if allowance < segments_to_sweep(segments.orientation) {
        return Err(Refusal::WorkLimitExceeded);
    }
    let across = sweep_along(scratch, 1, segments, cutoff, allowance)?;
    let down = sweep_along(scratch, 0, segments, cutoff, across.remaining)?;
    Ok(combined(across, down))
}

pub fn measure_parallel_density_profile_bounded(
    segments: &Segments<'_>,
    cutoff: f64,
    allowance: usize,
    scratch: &mut [u64],
) -> Result<CongestionReport, Refusal>
    ensures { let lent = lent_segments segments.now in
        let words = length scratch.old in
        let refusal = first_of (congestion_conditions lent cutoff words) in
        (result ≡ density_answer lent cutoff allowance words)
        × (scratch.new ≡ scratch_after refusal scratch.old)
        × (refusal ≡ Ok tt → SegmentsHeld lent × Binary64 cutoff) }
{
    check_congestion(segments, cutoff, scratch.len())?;
    segments.held();
    let total = total_length(segments);
    let swept = walk_segments(segments, cutoff, allowance, scratch);
    clear(scratch);
    answer_of(swept, total, allowance)
}
