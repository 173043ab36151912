// The tree in the scratch: nine words for each leaf, in leaf order. The first four are the edges of the leaf's box; the next four those of the branch whose right half starts at this leaf; the last is the node's id. The halves follow from the number of leaves, so no links are stored.
ghost use Rattle.std.specs.Prelude.{◌≡◌, ◌+◌, ◌*◌, ◌≤◌, length};
ghost use Rattle.drawing.specs.Entries.{lent_nodes};
ghost use Rattle.boxes.specs.Inner.Fitting.{FitBox};
ghost use Rattle.clearance_call.specs.Inner.LeafOrder.{Places};
ghost use Rattle.clearance_call.specs.Inner.Stored.{box_at, BoxPut, LeafPut, LeavesPut, SplitsPut};

use crate::order::box_at;
use boxes::Aabb;
use drawing::Nodes;
use floats::{bits_of, float_of_bits};

// The box whose edges are stored from word p on.
fn box_from(words: &[u64], p: usize) -> Aabb
    requires { p + 4 ≤ length words.now }
    ensures { result ≡ box_at words.now p }
{
    Aabb {
        left: float_of_bits(words[p]),
        top: float_of_bits(words[p + 1]),
        right: float_of_bits(words[p + 2]),
        bottom: float_of_bits(words[p + 3]),
    }
}

// The same for a box that is known to be fit, without the test for a NaN that `float_of_bits` makes: a fit box has none, and the walk reads a box at every step.
pub(crate) fn fit_box_from(words: &[u64], p: usize) -> Aabb
    requires p_in_bounds { p + 4 ≤ length words.now }
    requires fit_box { FitBox (box_at words.now p) }
    ensures { result ≡ box_at words.now p }
{
    Aabb {
        left: f64::from_bits(words[p]),
        top: f64::from_bits(words[p + 1]),
        right: f64::from_bits(words[p + 2]),
        bottom: f64::from_bits(words[p + 3]),
    }
}

// Stores a box's edges from word p on.
fn put_box(words: &mut [u64], p: usize, bounds: Aabb)
    requires { p + 4 ≤ length words.old }
    ensures { BoxPut words.old words.new p bounds }
{
    words[p] = bits_of(bounds.left);
    words[p + 1] = bits_of(bounds.top);
    words[p + 2] = bits_of(bounds.right);
    words[p + 3] = bits_of(bounds.bottom);
}

// Stores a leaf from word p on.
fn put_leaf(words: &mut [u64], p: usize, id: u32, bounds: Aabb)
    requires { p + 9 ≤ length words.old }
    ensures { LeafPut words.old words.new p (record { id = id; bounds = bounds }) }
{
    put_box(words, p, bounds);
    words[p + 8] = id as u64;
}

// Stores the nodes as leaves from word r on, in the order of their indices in the first words.
pub(crate) fn put_leaves(words: &mut [u64], r: usize, nodes: &Nodes<'_>)
    requires { Places words.old (length nodes.now.id.now) (lent_nodes nodes.now) × (length nodes.now.id.now ≤ r) × (r + 9 * length nodes.now.id.now ≤ length words.old) }
    ensures { LeavesPut words.old words.new r (length nodes.now.id.now) (lent_nodes nodes.now) }
{
    // By an index: the slice is written while its first words are read.
    for k in 0..nodes.id.len() {
        let i = words[k] as usize;
        put_leaf(words, r + 9 * k, nodes.id[i], box_at(i, nodes));
    }
}

// Stores the split boxes of the tree over the n leaves from leaf i on, and returns the box around them.
pub(crate) fn put_splits(words: &mut [u64], i: usize, n: usize) -> Aabb
    requires { (1 ≤ n) × (9 * (i + n) ≤ length words.old) }
    ensures { SplitsPut words.old words.new i n result }
{
    if n < 2 {
        return box_from(words, 9 * i);
    }
    let half = n / 2;
    let left = put_splits(words, i, half);
    let right = put_splits(words, i + half, n - half);
    let bounds = left.union(right);
    put_box(words, 9 * (i + half) + 4, bounds);
    bounds
}
