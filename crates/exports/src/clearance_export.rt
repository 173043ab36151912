// The clearance measure.
ghost use Rattle.std.specs.Prelude.{◌≡◌, length};
ghost use Rattle.drawing.specs.Refusals.{first_of, scratch_after};
ghost use Rattle.drawing.specs.Entries.{segment_columns, node_columns, exemption_columns};
ghost use Rattle.clearance.specs.Conditions.{clearance_conditions};
ghost use Rattle.clearance.specs.Answer.{clearance_answer, result_of};
ghost use Rattle.exports.specs.Words.{clearance_words};

use crate::words::write;
use clearance_call::measure_edge_node_clearance_bounded;
use drawing::{Exemptions, Nodes, Segments};

pub fn readability_clearance(
    net: &[u32],
    orientation: &[u8],
    fixed: &[f64],
    start: &[f64],
    end: &[f64],
    id: &[u32],
    x: &[f64],
    y: &[f64],
    width: &[f64],
    height: &[f64],
    exempt_net: &[u32],
    exempt_node: &[u32],
    threshold: f64,
    allowance: usize,
    scratch: &mut [u64],
    out: &mut [u64; 4],
) -> u32
    ensures { let lent_segments = segment_columns net.now orientation.now fixed.now start.now end.now in
        let lent_nodes = node_columns id.now x.now y.now width.now height.now in
        let lent_exemptions = exemption_columns exempt_net.now exempt_node.now in
        let words = length scratch.old in
        let told = result_of (clearance_answer lent_segments lent_nodes lent_exemptions threshold allowance words) in
        (result ≡ told.0)
        × (out.new ≡ clearance_words told.1)
        × (scratch.new ≡ scratch_after (first_of (clearance_conditions lent_segments lent_nodes lent_exemptions threshold words)) scratch.old) }
{
    let segments = Segments {
        net,
        orientation,
        fixed,
        start,
        end,
    };
    let nodes = Nodes {
        id,
        x,
        y,
        width,
        height,
    };
    let exemptions = Exemptions {
        net: exempt_net,
        node: exempt_node,
    };
    let answer = measure_edge_node_clearance_bounded(
        &segments,
        &nodes,
        &exemptions,
        threshold,
        allowance,
        scratch,
    );
    write(answer, out)
}
