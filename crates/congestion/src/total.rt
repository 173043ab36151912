// The total length, of segments with their ends in rising order (SCOPE 2.8, 3.11).
ghost use Rattle.std.specs.Prelude.{◌≡◌, ◌<◌, length};
ghost use Rattle.drawing.specs.Entries as Entries;
ghost use Rattle.drawing.specs.Entries.{lent_segments};
ghost use Rattle.drawing.specs.Inner.Lengths.{SegmentsAgree};
ghost use Rattle.floats.specs.Values.{plus_zero};
ghost use Rattle.congestion.specs.Rounded.{rounded_total};

use drawing::{Segments, ends_in_order};
use floats::canonical_zero;

// The summed length of all segments, for columns of one length: the checks of a call come first. Where `start` or `end` is too short, the answer is 0; of one that is longer than `net` the rest is not summed.
pub fn total_length(segments: &Segments<'_>) -> f64
    ensures value { SegmentsAgree (lent_segments segments.now) → result ≡ rounded_total (Entries.segments (lent_segments segments.now)) }
    ensures start_short { length segments.now.start.now < length segments.now.net.now → result ≡ plus_zero }
    ensures end_short { length segments.now.end.now < length segments.now.net.now → result ≡ plus_zero }
{
    let n = segments.net.len();
    if segments.start.len() < n || segments.end.len() < n {
        return 0.0;
    }
    let mut total = 0.0;
    for (one, other) in segments.start[..n].iter().zip(&segments.end[..n]) {
        let ends = ends_in_order(*one, *other);
        total += canonical_zero(ends.end) - canonical_zero(ends.start);
    }
    total
}
