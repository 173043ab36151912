// The three congestion measures, and the ratio of their lengths.
ghost use Rattle.std.specs.Prelude.{◌≡◌, length};
ghost use Rattle.drawing.specs.Refusals.{first_of, scratch_after};
ghost use Rattle.drawing.specs.Entries.{segment_columns};
ghost use Rattle.congestion.specs.Conditions.{congestion_conditions};
ghost use Rattle.congestion.specs.Ratio as Ratio;
ghost use Rattle.congestion.specs.Answer.{density_answer, profile_answer, congestion_answer, result_of};
ghost use Rattle.exports.specs.Words.{congestion_words};

use crate::words::write;
use congestion::ParallelCongestion;
use congestion_call::{measure_parallel_congestion, measure_parallel_congestion_profile_bounded};
use density_call::measure_parallel_density_profile_bounded;
use drawing::Segments;

// The density profile: all figures, within an allowance.
pub fn readability_density_profile(
    net: &[u32],
    orientation: &[u8],
    fixed: &[f64],
    start: &[f64],
    end: &[f64],
    cutoff: f64,
    allowance: usize,
    scratch: &mut [u64],
    out: &mut [u64; 7],
) -> u32
    ensures { let lent = segment_columns net.now orientation.now fixed.now start.now end.now in
        let words = length scratch.old in
        let told = result_of (density_answer lent cutoff allowance words) in
        (result ≡ told.0)
        × (out.new ≡ congestion_words told.1)
        × (scratch.new ≡ scratch_after (first_of (congestion_conditions lent cutoff words)) scratch.old) }
{
    let segments = Segments {
        net,
        orientation,
        fixed,
        start,
        end,
    };
    let answer = measure_parallel_density_profile_bounded(&segments, cutoff, allowance, scratch);
    write(answer, out)
}

// The congestion profile: the same with pair overlap and peak zero (SCOPE 6.2).
pub fn readability_congestion_profile(
    net: &[u32],
    orientation: &[u8],
    fixed: &[f64],
    start: &[f64],
    end: &[f64],
    cutoff: f64,
    allowance: usize,
    scratch: &mut [u64],
    out: &mut [u64; 7],
) -> u32
    ensures { let lent = segment_columns net.now orientation.now fixed.now start.now end.now in
        let words = length scratch.old in
        let told = result_of (profile_answer lent cutoff allowance words) in
        (result ≡ told.0)
        × (out.new ≡ congestion_words told.1)
        × (scratch.new ≡ scratch_after (first_of (congestion_conditions lent cutoff words)) scratch.old) }
{
    let segments = Segments {
        net,
        orientation,
        fixed,
        start,
        end,
    };
    let answer = measure_parallel_congestion_profile_bounded(&segments, cutoff, allowance, scratch);
    write(answer, out)
}

// All figures, without an allowance.
pub fn readability_congestion(
    net: &[u32],
    orientation: &[u8],
    fixed: &[f64],
    start: &[f64],
    end: &[f64],
    cutoff: f64,
    scratch: &mut [u64],
    out: &mut [u64; 7],
) -> u32
    ensures { let lent = segment_columns net.now orientation.now fixed.now start.now end.now in
        let words = length scratch.old in
        let told = result_of (congestion_answer lent cutoff words) in
        (result ≡ told.0)
        × (out.new ≡ congestion_words told.1)
        × (scratch.new ≡ scratch_after (first_of (congestion_conditions lent cutoff words)) scratch.old) }
{
    let segments = Segments {
        net,
        orientation,
        fixed,
        start,
        end,
    };
    let answer = measure_parallel_congestion(&segments, cutoff, scratch);
    write(answer, out)
}

// The ratio (SCOPE 3.17) does not depend on the two figures that are set to zero here.
pub fn readability_ratio(total: f64, congested: f64) -> f64
    ensures { result ≡ Ratio.ratio total congested }
{
    let lengths = ParallelCongestion {
        total_length: total,
        congested_length: congested,
        pair_overlap_length: 0.0,
        peak_close_neighbors: 0,
    };
    lengths.ratio()
}
