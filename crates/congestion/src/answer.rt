// Answers: from what the sweep found, and the answer without density.
ghost use Rattle.std.specs.Prelude.{◌≡◌};
ghost use Rattle.congestion.specs.Inner.Answering.{answer_of, answer_without_density};

use crate::found::Found;
use crate::report::{CongestionReport, ParallelCongestion};
use drawing::{Refusal, visits_used};

// The answer of a call whose checks passed, for this total length.
pub fn answer_of(
    swept: Result<Found, Refusal>,
    total: f64,
    allowance: usize,
) -> Result<CongestionReport, Refusal>
    ensures { result ≡ answer_of swept total allowance }
{
    let found = swept?;
    let congestion = ParallelCongestion {
        total_length: total,
        congested_length: found.congested_length,
        pair_overlap_length: found.pair_overlap_length,
        peak_close_neighbors: found.peak_close_neighbors,
    };
    let report = CongestionReport {
        congestion,
        minimum_positive: found.minimum_positive,
        visits: visits_used(allowance, found.remaining),
    };
    Ok(report)
}

// The answer with pair overlap and peak zero.
pub fn without_density(
    answer: Result<CongestionReport, Refusal>,
) -> Result<CongestionReport, Refusal>
    ensures { result ≡ answer_without_density answer }
{
    let report = answer?;
    let congestion = ParallelCongestion {
        pair_overlap_length: 0.0,
        peak_close_neighbors: 0,
        ..report.congestion
    };
    Ok(CongestionReport {
        congestion,
        ..report
    })
}
