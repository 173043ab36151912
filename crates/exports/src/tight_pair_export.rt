// The tight pair (SCOPE 12).
ghost use Rattle.drawing.specs.Entries.{segment_columns, node_columns, exemption_columns};
ghost use Rattle.exports.specs.Words.{PairWritten};

use crate::words::write;
use drawing::{Exemptions, Nodes, Segments};

pub fn readability_tight_pair(
    net: &[u32],
    orientation: &[u8],
    fixed: &[f64],
    start: &[f64],
    end: &[f64],
    id: &[u32],
    x: &[f64],
    y: &[f64],
    width: &[f64],
    height: &[f64],
    exempt_net: &[u32],
    exempt_node: &[u32],
    out: &mut [u64; 3],
) -> u32
    ensures { PairWritten (segment_columns net.now orientation.now fixed.now start.now end.now) (node_columns id.now x.now y.now width.now height.now) (exemption_columns exempt_net.now exempt_node.now) result out.new }
{
    let segments = Segments {
        net,
        orientation,
        fixed,
        start,
        end,
    };
    let nodes = Nodes {
        id,
        x,
        y,
        width,
        height,
    };
    let exemptions = Exemptions {
        net: exempt_net,
        node: exempt_node,
    };
    let answer = tight_pair::tight_pair(&segments, &nodes, &exemptions);
    write(answer, out)
}
