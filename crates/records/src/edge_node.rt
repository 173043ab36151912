// Clearance of a lent list of records (SCOPE 2.6, 15.9).
ghost use Rattle.std.specs.Prelude.{◌≡◌, length, Ok};
ghost use Rattle.drawing.specs.Refusals.{first_of, scratch_after};
ghost use Rattle.drawing.specs.Entries.{lent_nodes, lent_exemptions};
ghost use Rattle.drawing.specs.Held.{Binary64, SegmentsHeld, NodesHeld};
ghost use Rattle.clearance.specs.Conditions.{clearance_conditions};
ghost use Rattle.clearance.specs.Answer.{clearance_answer};
ghost use Rattle.records.specs.Records.{of_edge_node, edge_node_columns};

use clearance::EdgeNodeClearance;
use clearance_call::measure_edge_node_clearance_bounded;
use drawing::{Exemptions, Nodes, Refusal, Segment};
use lines::{Columns, SegmentRecord};

// A straight wire segment, as clearance takes it.
// Two records with the same fields, this one and `ParallelSegment`: each call takes its own, as the Rust does (SCOPE 2.6), and a user's code names both.
#[repr(C)]
#[derive(Clone, Copy)]
pub struct EdgeNodeSegment {
    pub net: u32,
    pub horizontal: bool,
    pub fixed: f64,
    pub start: f64,
    pub end: f64,
}

#[tactic(auto, unfolding(crate::specs::Records::of_edge_node, lines::specs::Orientation::orientation_byte))]
impl SegmentRecord for EdgeNodeSegment {
    ghost segment = { of_edge_node };

    fn segment(self) -> Segment {
        Segment {
            net: self.net,
            orientation: u8::from(self.horizontal),
            fixed: self.fixed,
            start: self.start,
            end: self.end,
        }
    }
}

pub fn measure_edge_node_clearance_bounded_by_records(
    records: &[EdgeNodeSegment],
    nodes: &Nodes<'_>,
    exemptions: &Exemptions<'_>,
    threshold: f64,
    allowance: usize,
    scratch: &mut [u64],
) -> Result<EdgeNodeClearance, Refusal>
    ensures { let segments = edge_node_columns records.now in
        let words = length scratch.old in
        let refusal = first_of (clearance_conditions segments (lent_nodes nodes.now) (lent_exemptions exemptions.now) threshold words) in
        (result ≡ clearance_answer segments (lent_nodes nodes.now) (lent_exemptions exemptions.now) threshold allowance words)
        × (scratch.new ≡ scratch_after refusal scratch.old)
        × (refusal ≡ Ok tt → SegmentsHeld segments × NodesHeld (lent_nodes nodes.now) × Binary64 threshold) }
{
    let mut columns = Columns::empty();
    columns.copy_from(records);
    measure_edge_node_clearance_bounded(
        &columns.segments(),
        nodes,
        exemptions,
        threshold,
        allowance,
        scratch,
    )
}
