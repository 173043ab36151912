// The clearance measure by columns (SCOPE 6.1).
ghost use Rattle.std.specs.Prelude.{◌≡◌, length, Ok, IfErr};
ghost use Rattle.laws.specs.Inner.Allowance.{within};
ghost use Rattle.drawing.specs.declared.refusal.Refusal.TheVariants.{WorkLimitExceeded};
ghost use Rattle.drawing.specs.Refusals.{first_of, scratch_after};
ghost use Rattle.drawing.specs.Entries as Entries;
ghost use Rattle.drawing.specs.Entries.{lent_segments, lent_nodes, lent_exemptions, segments, nodes, exemptions};
ghost use Rattle.drawing.specs.Held.{Binary64, SegmentsHeld, NodesHeld};
ghost use Rattle.clearance.specs.Conditions.{clearance_conditions};
ghost use Rattle.clearance.specs.Walk.{walk_all};
ghost use Rattle.clearance.specs.Inner.State.{outcome_of};
ghost use Rattle.clearance.specs.Answer.{clearance_answer};

use crate::prepare::prepare_nodes;
use crate::tables::order_segments;
use crate::walk_all::walk_all;
use clearance::{EdgeNodeClearance, Walking, answer_of, at_start, check_clearance};
use drawing::{Exemptions, Nodes, Refusal, Segments, clear};
use exemptions::gather;

// The walks of all segments of a fit drawing. Without segments or without nodes there are no pairs, and nothing is put in order. Otherwise the scratch holds 6 words for each segment, for their order, then 20 for each node, for the tree and the groups of its leaves.
fn walk_segments(
    segments: &Segments<'_>,
    nodes: &Nodes<'_>,
    exemptions: &Exemptions<'_>,
    threshold: f64,
    allowance: usize,
    scratch: &mut [u64],
) -> Result<Walking, Refusal>
    requires { first_of (clearance_conditions (lent_segments segments.now) (lent_nodes nodes.now) (lent_exemptions exemptions.now) threshold (length scratch.old)) ≡ Ok tt }
    ensures outcome { outcome_of result ≡ within allowance (walk_all (Entries.exemptions (lent_exemptions exemptions.now)) (λ _. threshold) (Entries.segments (lent_segments segments.now)) (Entries.nodes (lent_nodes nodes.now))) }
    ensures refusal { IfErr result (λ r. r ≡ WorkLimitExceeded) }
{
    if segments.net.len() == 0 {
        return Ok(at_start(allowance));
    }
    let m = nodes.id.len();
    if m == 0 {
        return Ok(at_start(allowance));
    }
    let mut packed = [0; 4096];
    gather(&mut packed, exemptions);
    order_segments(scratch, segments);
    segments.held();
    nodes.held();
    let first = 6 * segments.net.len();
    let k = exemptions.net.len();
    let last = first + 20 * m;
    prepare_nodes(&mut scratch[first..last], nodes, k);
    walk_all(
        &scratch[first + 11 * m..last],
        &scratch[0..],
        segments,
        threshold,
        &packed[0..k],
        &scratch[first..first + m],
        &scratch[first + m..last],
        allowance,
    )
}

pub fn measure_edge_node_clearance_bounded(
    segments: &Segments<'_>,
    nodes: &Nodes<'_>,
    exemptions: &Exemptions<'_>,
    threshold: f64,
    allowance: usize,
    scratch: &mut [u64],
) -> Result<EdgeNodeClearance, Refusal>
    ensures { let s = lent_segments segments.now in
        let n = lent_nodes nodes.now in
        let e = lent_exemptions exemptions.now in
        let words = length scratch.old in
        let refusal = first_of (clearance_conditions s n e threshold words) in
        (result ≡ clearance_answer s n e threshold allowance words)
        × (scratch.new ≡ scratch_after refusal scratch.old)
        × (refusal ≡ Ok tt → SegmentsHeld s × NodesHeld n × Binary64 threshold) }
{
    let words = scratch.len();
    check_clearance(segments, nodes, exemptions, threshold, words)?;
    let walked = walk_segments(segments, nodes, exemptions, threshold, allowance, scratch);
    clear(scratch);
    segments.held();
    nodes.held();
    answer_of(walked, allowance)
}
