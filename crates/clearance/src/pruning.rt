// The tests by which the walk skips a part of the tree, or the distances of its branches.
ghost use Rattle.std.specs.Prelude.{◌≡◌};
ghost use Rattle.drawing.specs.Inner.LeastFloats.{Number, gap_of_float};
ghost use Rattle.clearance.specs.Walk.{contributes};
ghost use Rattle.clearance.specs.Inner.State.{axis_below, edges_below};

use boxes::Aabb;

// Whether a part whose box is at this distance may still change the figures. Where there is no least distance yet, `least` is a NaN: then `least <= lower` is false, and every part may. The walk passes the distance of two boxes, which is never a NaN.
pub fn clearance_subtree_can_contribute(lower: f64, threshold: f64, least: f64) -> bool
    ensures { Number lower → result ≡ contributes lower threshold (gap_of_float least) }
{
    lower < threshold || !(least <= lower)
}

// Along one axis: whether d lies less than the threshold beyond b, and c less than the threshold before a. Where the threshold is above 0, everything in c..d is then nearer to a..b than the threshold.
fn axis_below(a: f64, b: f64, c: f64, d: f64, threshold: f64) -> bool
    ensures { result ≡ axis_below a b c d threshold }
{
    d - b < threshold && a - c < threshold
}

// Whether the farthest edges of the box `around` are nearer to the box `bounds` than the threshold. Where the threshold is above 0, every box in `around` then is too.
pub fn edges_below(bounds: Aabb, around: Aabb, threshold: f64) -> bool
    ensures { result ≡ edges_below bounds around threshold }
{
    axis_below(
        bounds.left,
        bounds.right,
        around.left,
        around.right,
        threshold,
    ) && axis_below(
        bounds.top,
        bounds.bottom,
        around.top,
        around.bottom,
        threshold,
    )
}
