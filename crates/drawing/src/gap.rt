// A least gap: absent or one float (SCOPE 6.4, 15.5). And the least gap so far, as a walk keeps it: one float.
ghost use Rattle.std.specs.Prelude.{◌≡◌};
ghost use Rattle.std.specs.Float.{nan};
ghost use Rattle.drawing.specs.Gaps as Gaps;
ghost use Rattle.drawing.specs.Inner.LeastFloats as LeastFloats;

use floats::lesser;

// The lesser of two gaps, the present one where the other is absent.
pub fn minimum_option(left: Option<f64>, right: Option<f64>) -> Option<f64>
    ensures { result ≡ Gaps.lesser_gap left right }
{
    match (left, right) {
        (None, _) => right,
        (_, None) => left,
        (Some(a), Some(b)) => Some(lesser(a, b)),
    }
}

// No gap yet. While a walk runs, its least gap is a float, and a NaN where there is none: a gap is never a NaN, and may be +infinity.
// A walk passes its figures on at every visit. An enum would be copied by a load wider than the stores that made it, of the tag and of the float; the processor cannot forward stores that are still pending to such a load, so the load waits until they are done.
pub fn no_gap() -> f64
    ensures { result ≡ nan }
{
    0.0 / 0.0
}

// The least gap so far with one more. A NaN is not at most anything, so the first gap replaces it.
pub fn least_with(least: f64, gap: f64) -> f64
    ensures { result ≡ LeastFloats.least_with least gap }
{
    if least <= gap { least } else { gap }
}

// The gap that the walk found. Only a NaN differs from itself.
pub fn gap_of_float(least: f64) -> Option<f64>
    ensures { result ≡ LeastFloats.gap_of_float least }
{
    if least != least {
        return None;
    }
    Some(least)
}
