// The checks of the call, in the order of SCOPE 7.
ghost use Rattle.std.specs.Prelude.{◌≡◌};
ghost use Rattle.drawing.specs.Refusals.{first_of};
ghost use Rattle.drawing.specs.Entries.{lent_segments};
ghost use Rattle.separation.specs.Conditions.{separation_conditions};

use drawing::{Refusal, Segments};
use list_checks::check_segments;

// Separation takes segments, and a scratch whose length is `words`.
pub fn check_separation(segments: &Segments<'_>, words: usize) -> Result<(), Refusal>
    ensures { result ≡ first_of (separation_conditions (lent_segments segments.now) words) }
{
    check_segments(segments, words)
}
