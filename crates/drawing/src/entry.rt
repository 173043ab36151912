// Refusal 5 of one entry or setting. SCOPE 7.5.
ghost use Rattle.std.specs.Prelude.{◌≡◌};
ghost use Rattle.drawing.specs.Entries as Entries;
ghost use Rattle.drawing.specs.Conditions as Conditions;

use crate::ends::ends_in_order;
use crate::lists::{Node, Segment};
use floats::is_finite;

// A segment, its ends in either order: an orientation byte above 1, a number that is not finite, or ends that are equal.
pub fn segment_unfit(segment: Segment) -> bool
    ensures { result ≡ Conditions.unfit_segment (Entries.as_taken segment) }
{
    let ends = ends_in_order(segment.start, segment.end);
    let first = ends.start;
    let last = ends.end;
    if 1 < segment.orientation {
        return true;
    }
    if !is_finite(segment.fixed) {
        return true;
    }
    if !is_finite(first) {
        return true;
    }
    if !is_finite(last) {
        return true;
    }
    !(first < last)
}

// One axis of a node's box: its corner and its extent.
fn extent_unfit(corner: f64, extent: f64) -> bool
    ensures { result ≡ Conditions.unfit_extent corner extent }
{
    if !is_finite(corner) {
        return true;
    }
    if !is_finite(extent) {
        return true;
    }
    if !(0.0 < extent) {
        return true;
    }
    !is_finite(corner + extent)
}

// A node: either axis of its box.
pub fn node_unfit(node: Node) -> bool
    ensures { result ≡ Conditions.unfit_node node }
{
    if extent_unfit(node.x, node.width) {
        return true;
    }
    extent_unfit(node.y, node.height)
}

// A threshold: not finite, or below 0, which -0 is not.
pub fn threshold_unfit(threshold: f64) -> bool
    ensures { result ≡ Conditions.unfit_threshold threshold }
{
    if !is_finite(threshold) {
        return true;
    }
    threshold < 0.0
}
