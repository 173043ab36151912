// The walks of all segments, one after another in the order of SCOPE 5.4.
ghost use Rattle.std.specs.Prelude.{◌≡◌, List, ◌+◌, ◌*◌, ◌^◌, ◌≤◌, ◌<◌, length, IfErr};
ghost use Rattle.laws.specs.Inner.Allowance.{within};
ghost use Rattle.drawing.specs.declared.refusal.Refusal.TheVariants.{WorkLimitExceeded};
ghost use Rattle.drawing.specs.Entries.{Exemption, lent_segments, as_taken};
ghost use Rattle.boxes.specs.Boxes.{segment_box};
ghost use Rattle.boxes.specs.Inner.Fitting.{FitBox};
ghost use Rattle.clearance_call.specs.Inner.Stored.{stored_tree};
ghost use Rattle.clearance_call.specs.Inner.Nested.{Nested};
ghost use Rattle.clearance.specs.Walk.{walk};
ghost use Rattle.exemptions.specs.Inner.Exempting.{Holds};
ghost use Rattle.clearance_call.specs.Inner.Marks.{Grouped, MarksOf};
ghost use Rattle.clearance.specs.Inner.State.{so_far, outcome_of};
ghost use Rattle.clearance_call.specs.Inner.Walking.{Part, NetMarks, HoldsCount, SegmentPlaces, all_walks};

use crate::marks::Marks;
use crate::walk::{bounds_of, visit_segment_candidates};
use boxes::Aabb;
use clearance::{Subtree, Walking, at_start};
use drawing::{Refusal, Segment, Segments};

// The walk of one segment, its ends in either order, over the m leaves of the tree; the marks are those of its net.
// The tree and m stay two parameters, as the marks and groups do: they are parts of the lent scratch, and a struct of them would be taken apart at each leaf.
fn walk_segment(
    tree: &[u64],
    m: usize,
    segment: Segment,
    threshold: f64,
    marks: &[u64],
    groups: &[u64],
    state: Walking,
) -> Result<Walking, Refusal>
    requires part { Part tree.now 0 m × (m ≤ 4096) }
    requires net_marks { NetMarks marks.now groups.now tree.now }
    requires remaining_bound { state.violations + state.remaining < 2 ^ 64 }
    requires fit_and_nested { FitBox (segment_box (as_taken segment)) × Nested (stored_tree m tree.now 0 m) }
    ensures outcome { (ex : List Exemption) → MarksOf marks.now groups.now tree.now ex segment.net → outcome_of result ≡ within state.remaining (walk ex threshold (as_taken segment) (stored_tree m tree.now 0 m) (so_far state)) }
    ensures refusal { IfErr result (λ r. r ≡ WorkLimitExceeded) }
{
    let bounds = Aabb::from_segment(segment);
    let whole = Subtree {
        first: 0,
        count: m,
        lower: bounds.distance(bounds_of(tree, 0, m)),
    };
    visit_segment_candidates(tree, whole, bounds, threshold, marks, groups, state)
}

// The segments' indices are in the first words of `order`, and the exemptions are the words of `packed`. `ids` has a word for each leaf: where there are exemptions, the leaves' ids in order, and then the leaves' groups are in the first words of `groups`.
pub(crate) fn walk_all(
    tree: &[u64],
    order: &[u64],
    segments: &Segments<'_>,
    threshold: f64,
    packed: &[u64],
    ids: &[u64],
    groups: &[u64],
    allowance: usize,
) -> Result<Walking, Refusal>
    requires part { Part tree.now 0 (length ids.now) × (length ids.now ≤ 4096) }
    requires segment_places { SegmentPlaces order.now (lent_segments segments.now) }
    requires held_and_grouped { HoldsCount packed.now (length packed.now) × (0 < length packed.now → Grouped ids.now groups.now tree.now (length ids.now)) × (length tree.now ≤ 9 * length groups.now) }
    requires nested { Nested (stored_tree (length ids.now) tree.now 0 (length ids.now)) }
    ensures outcome { (ex : List Exemption) → Holds packed.now ex → length ex ≡ length packed.now → outcome_of result ≡ within allowance (all_walks ex (λ _. threshold) tree.now (length ids.now) order.now (lent_segments segments.now)) }
    ensures refusal { IfErr result (λ r. r ≡ WorkLimitExceeded) }
{
    let mut state = at_start(allowance);
    let mut marks = Marks::none();
    for q in 0..segments.net.len() {
        let segment = segments.at(order[q] as usize);
        marks.renew(segment.net, packed, ids);
        state = walk_segment(
            tree,
            ids.len(),
            segment,
            threshold,
            marks.words(),
            groups,
            state,
        )?;
    }
    Ok(state)
}
