// Axis-aligned boxes: those of nodes and of segments, given from either end, the union of two, and their distance. SCOPE 2.8, 3.1 to 3.3, 15.3.
ghost use Rattle.std.specs.Prelude.{◌≡◌};
ghost use Rattle.drawing.specs.Entries as Entries;
ghost use Rattle.boxes.specs.Boxes as Boxes;

use drawing::{Node, Segment, ends_in_order};
use floats::{greater, lesser};

#[derive(Clone, Copy)]
pub struct Aabb {
    pub left: f64,
    pub top: f64,
    pub right: f64,
    pub bottom: f64,
}

// The gap of the extents a..b and c..d along one axis: one rounded subtraction, or 0 where they touch or overlap.
fn axis_gap(a: f64, b: f64, c: f64, d: f64) -> f64
    ensures { result ≡ Boxes.axis_gap a b c d }
{
    if b < c {
        c - b
    } else if d < a {
        a - d
    } else {
        0.0
    }
}

impl Aabb {
    // A node's box: its right edge is x + width rounded once, its bottom edge likewise.
    pub fn from_node(node: Node) -> Aabb
        ensures { result ≡ Boxes.node_box node }
    {
        Aabb {
            left: node.x,
            top: node.y,
            right: node.x + node.width,
            bottom: node.y + node.height,
        }
    }

    // A segment's box, which has no extent across the segment. The ends may be given in either order.
    pub fn from_segment(segment: Segment) -> Aabb
        ensures { result ≡ Boxes.segment_box (Entries.as_taken segment) }
    {
        let ends = ends_in_order(segment.start, segment.end);
        if segment.orientation == 1 {
            Aabb {
                left: ends.start,
                top: segment.fixed,
                right: ends.end,
                bottom: segment.fixed,
            }
        } else {
            Aabb {
                left: segment.fixed,
                top: ends.start,
                right: segment.fixed,
                bottom: ends.end,
            }
        }
    }

    // The least box around both.
    pub fn union(self, other: Aabb) -> Aabb
        ensures { result ≡ Boxes.union self other }
    {
        Aabb {
            left: lesser(self.left, other.left),
            top: lesser(self.top, other.top),
            right: greater(self.right, other.right),
            bottom: greater(self.bottom, other.bottom),
        }
    }

    // The larger of the two axis gaps.
    pub fn distance(self, other: Aabb) -> f64
        ensures { result ≡ Boxes.distance self other }
    {
        let dx = axis_gap(self.left, self.right, other.left, other.right);
        let dy = axis_gap(self.top, self.bottom, other.top, other.bottom);
        greater(dx, dy)
    }
}
