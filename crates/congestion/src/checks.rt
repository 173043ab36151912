// The checks of the congestion calls, in the order of SCOPE 7.
ghost use Rattle.std.specs.Prelude.{◌≡◌};
ghost use Rattle.laws.specs.Lists.{some_of};
ghost use Rattle.drawing.specs.Refusals.{first_of};
ghost use Rattle.drawing.specs.Entries as Entries;
ghost use Rattle.drawing.specs.Entries.{lent_segments};
ghost use Rattle.drawing.specs.Inner.Lengths.{SegmentsAgree};
ghost use Rattle.drawing.specs.Conditions.{off_grid_segment};
ghost use Rattle.congestion.specs.Conditions.{congestion_conditions};

use drawing::{Refusal, Segment, Segments};
use floats::{is_finite, on_grid};
use list_checks::check_segments;

// SCOPE 7.6: a coordinate is off the grid. Both ends are asked the same, so their order does not matter.
#[tactic(auto, unfolding(drawing::specs::Conditions::off_grid_segment, drawing::specs::Conditions::off_grid_fields))]
fn segment_off_grid(segment: Segment) -> bool
    ensures { result ≡ off_grid_segment segment }
{
    !on_grid(segment.fixed) || !on_grid(segment.start) || !on_grid(segment.end)
}

fn segments_off_grid(segments: &Segments<'_>) -> bool
    requires { SegmentsAgree (lent_segments segments.now) }
    ensures { result ≡ some_of off_grid_segment (Entries.segments (lent_segments segments.now)) }
{
    (0..segments.net.len()).any(|i| segment_off_grid(segments.at(i)))
}

// The checks of segments and scratch, then those of the cutoff and the grid.
pub fn check_congestion(segments: &Segments<'_>, cutoff: f64, words: usize) -> Result<(), Refusal>
    ensures { result ≡ first_of (congestion_conditions (lent_segments segments.now) cutoff words) }
{
    check_segments(segments, words)?;
    if !is_finite(cutoff) {
        return Err(Refusal::InvalidInput);
    }
    if segments_off_grid(segments) {
        return Err(Refusal::OffGrid);
    }
    if !on_grid(cutoff) {
        return Err(Refusal::OffGrid);
    }
    Ok(())
}
