// Separation and congestion of a lent list of records (SCOPE 2.6, 15.9).
ghost use Rattle.std.specs.Prelude.{◌≡◌, length, Ok};
ghost use Rattle.drawing.specs.Refusals.{first_of, scratch_after};
ghost use Rattle.drawing.specs.Held.{Binary64, SegmentsHeld};
ghost use Rattle.separation.specs.Conditions.{separation_conditions};
ghost use Rattle.separation.specs.Answer.{separation_answer};
ghost use Rattle.congestion.specs.Conditions.{congestion_conditions};
ghost use Rattle.congestion.specs.Answer.{density_answer, profile_answer, congestion_answer};
ghost use Rattle.records.specs.Records.{of_parallel, parallel_columns};

use congestion::CongestionReport;
use congestion_call::{measure_parallel_congestion, measure_parallel_congestion_profile_bounded};
use density_call::measure_parallel_density_profile_bounded;
use drawing::{Refusal, Segment};
use lines::{Columns, SegmentRecord};
use separation::ParallelSeparation;
use separation_call::measure_parallel_separation_bounded;

// A straight wire segment, as separation and congestion take it. `EdgeNodeSegment` says why it is a type of its own.
#[repr(C)]
#[derive(Clone, Copy)]
pub struct ParallelSegment {
    pub net: u32,
    pub horizontal: bool,
    pub fixed: f64,
    pub start: f64,
    pub end: f64,
}

#[tactic(auto, unfolding(crate::specs::Records::of_parallel, lines::specs::Orientation::orientation_byte))]
impl SegmentRecord for ParallelSegment {
    ghost segment = { of_parallel };

    fn segment(self) -> Segment {
        Segment {
            net: self.net,
            orientation: u8::from(self.horizontal),
            fixed: self.fixed,
            start: self.start,
            end: self.end,
        }
    }
}

pub fn measure_parallel_separation_bounded_by_records(
    records: &[ParallelSegment],
    allowance: usize,
    scratch: &mut [u64],
) -> Result<ParallelSeparation, Refusal>
    ensures { let lent = parallel_columns records.now in
        let words = length scratch.old in
        let refusal = first_of (separation_conditions lent words) in
        (result ≡ separation_answer lent allowance words)
        × (scratch.new ≡ scratch_after refusal scratch.old)
        × (refusal ≡ Ok tt → SegmentsHeld lent) }
{
    let mut columns = Columns::empty();
    columns.copy_from(records);
    measure_parallel_separation_bounded(&columns.segments(), allowance, scratch)
}

pub fn measure_parallel_density_profile_bounded_by_records(
    records: &[ParallelSegment],
    cutoff: f64,
    allowance: usize,
    scratch: &mut [u64],
) -> Result<CongestionReport, Refusal>
    ensures { let lent = parallel_columns records.now in
        let words = length scratch.old in
        let refusal = first_of (congestion_conditions lent cutoff words) in
        (result ≡ density_answer lent cutoff allowance words)
        × (scratch.new ≡ scratch_after refusal scratch.old)
        × (refusal ≡ Ok tt → SegmentsHeld lent × Binary64 cutoff) }
{
    let mut columns = Columns::empty();
    columns.copy_from(records);
    measure_parallel_density_profile_bounded(&columns.segments(), cutoff, allowance, scratch)
}

pub fn measure_parallel_congestion_profile_bounded_by_records(
    records: &[ParallelSegment],
    cutoff: f64,
    allowance: usize,
    scratch: &mut [u64],
) -> Result<CongestionReport, Refusal>
    ensures { let lent = parallel_columns records.now in
        let words = length scratch.old in
        let refusal = first_of (congestion_conditions lent cutoff words) in
        (result ≡ profile_answer lent cutoff allowance words)
        × (scratch.new ≡ scratch_after refusal scratch.old)
        × (refusal ≡ Ok tt → SegmentsHeld lent × Binary64 cutoff) }
{
    let mut columns = Columns::empty();
    columns.copy_from(records);
    measure_parallel_congestion_profile_bounded(&columns.segments(), cutoff, allowance, scratch)
}

pub fn measure_parallel_congestion_by_records(
    records: &[ParallelSegment],
    cutoff: f64,
    scratch: &mut [u64],
) -> Result<CongestionReport, Refusal>
    ensures { let lent = parallel_columns records.now in
        let words = length scratch.old in
        let refusal = first_of (congestion_conditions lent cutoff words) in
        (result ≡ congestion_answer lent cutoff words)
        × (scratch.new ≡ scratch_after refusal scratch.old)
        × (refusal ≡ Ok tt → SegmentsHeld lent × Binary64 cutoff) }
{
    let mut columns = Columns::empty();
    columns.copy_from(records);
    measure_parallel_congestion(&columns.segments(), cutoff, scratch)
}
