// The order of the tree's leaves (SCOPE 5.1, 5.2, 15.2): the index column is put in order along the wider axis, halved, and each half again.
ghost use Rattle.std.specs.Prelude.{◌≡◌, cond, ◌++◌, ℕ, ◌+◌, ◌*◌, ◌^◌, ◌≤◌, ◌<◌, length, get_or, take, drop};
ghost use Rattle.drawing.specs.Entries.{lent_nodes};
ghost use Rattle.drawing.specs.Inner.Lengths.{NodesAgree};
ghost use Rattle.clearance.specs.Tree as Tree;
ghost use Rattle.clearance_call.specs.Inner.LeafOrder.{indexed_at, box_from, leaf_order, Places, Buildable};

use boxes::Aabb;
use drawing::Nodes;
use floats::key_of;
use sorting::sort_indices;

// Whether a box extends further along the horizontal axis, or as far along both.
fn horizontal_wider(bounds: Aabb) -> bool
    ensures { result ≡ Tree.horizontal_wider bounds }
{
    key_of(bounds.bottom - bounds.top) <= key_of(bounds.right - bounds.left)
}

// Where the table along the wider axis of a box starts: the first of two at t, or the second, which follows its m rows of five words.
fn table_along(bounds: Aabb, t: usize, m: usize) -> usize
    requires { t + 10 * m < 2 ^ 64 }
    ensures { result ≡ cond (Tree.horizontal_wider bounds) t (t + 5 * m) }
{
    if horizontal_wider(bounds) {
        t
    } else {
        t + 5 * m
    }
}

// The box of the node at index i.
pub(crate) fn box_at(i: usize, nodes: &Nodes<'_>) -> Aabb
    requires { (i < length nodes.now.id.now) × NodesAgree (lent_nodes nodes.now) }
    ensures { result ≡ (indexed_at (lent_nodes nodes.now) i).bounds }
{
    Aabb::from_node(nodes.at(i))
}

// The box around the nodes whose indices are in the first n words.
fn hull_of(s: &[u64], n: usize, nodes: &Nodes<'_>) -> Aabb
    requires { (0 < n) × Places s.now n (lent_nodes nodes.now) }
    ensures { result ≡ box_from (lent_nodes nodes.now) (get_or s.now 0 0) (drop 1 (take n s.now)) }
{
    let mut bounds = box_at(s[0] as usize, nodes);
    for k in 1..n {
        bounds = bounds.union(box_at(s[k] as usize, nodes));
    }
    bounds
}

// The leaves in order, in the first n words of s. After these, from t on, are the nodes' rows along the horizontal axis and then those along the vertical one.
pub(crate) fn build_clearance_bvh(s: &mut [u64], n: usize, t: usize, nodes: &Nodes<'_>)
    requires { Buildable s.old n t (lent_nodes nodes.now) }
    ensures { (k : ℕ) → n ≤ k → s.new ≡ leaf_order k (lent_nodes nodes.now) (drop t s.old) (drop (t + 5 * length nodes.now.id.now) s.old) (take n s.old) ++ drop n s.old }
{
    if n < 2 {
        return;
    }
    let bounds = hull_of(s, n, nodes);
    let table = table_along(bounds, t, nodes.id.len());
    sort_indices(s, n, table, 5);
    let middle = n / 2;
    build_clearance_bvh(s, middle, t, nodes);
    build_clearance_bvh(&mut s[middle..], n - middle, t - middle, nodes);
}
