// The tree over the nodes and the groups of its leaves, prepared in the scratch. Of the 20 m words for m nodes the first m are the nodes' indices in leaf order, the next 10 m their rows along the two axes, and the last 9 m the leaves of the tree. Once the tree is built, the words before it are free again: the first m become the ids in order, the next m the leaves' groups.
ghost use Rattle.std.specs.Prelude.{◌≡◌, ◌*◌, ◌≤◌, ◌<◌, length, drop};
ghost use Rattle.drawing.specs.Entries.{lent_nodes};
ghost use Rattle.drawing.specs.Inner.Lengths.{NodesAgree};
ghost use Rattle.clearance_call.specs.Inner.Stored.{TreeStored};
ghost use Rattle.clearance_call.specs.Inner.Marks.{Grouped};

use crate::marks::group_leaves;
use crate::order::build_clearance_bvh;
use crate::stored::{put_leaves, put_splits};
use crate::tables::{fill_node_tables, places_in_front};
use drawing::Nodes;

pub(crate) fn prepare_nodes(s: &mut [u64], nodes: &Nodes<'_>, exemptions: usize)
    requires { NodesAgree (lent_nodes nodes.now) × (1 ≤ length nodes.now.id.now) × (length nodes.now.id.now ≤ 4096) × (length s.old ≡ 20 * length nodes.now.id.now) }
    ensures tree_stored { TreeStored (lent_nodes nodes.now) s.new }
    ensures grouped { 0 < exemptions → Grouped s.new (drop (length nodes.now.id.now) s.new) (drop (11 * length nodes.now.id.now) s.new) (length nodes.now.id.now) }
{
    let m = nodes.id.len();
    places_in_front(s, m);
    fill_node_tables(s, m, nodes);
    build_clearance_bvh(s, m, m, nodes);
    put_leaves(s, 11 * m, nodes);
    put_splits(&mut s[11 * m..], 0, m);
    group_leaves(s, m, exemptions);
}
