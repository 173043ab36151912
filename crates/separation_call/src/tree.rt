// The tree of the active nets, a word for each node: node k's summary is word k, its children are 2 k and 2 k + 1, the root is node 1.
ghost use Rattle.std.specs.Prelude.{◌≡◌, ℕ, ◌+◌, ◌*◌, ◌^◌, ◌≤◌, ◌<◌, length, Ok};
ghost use Rattle.laws.specs.Charged.{free, visit};
ghost use Rattle.laws.specs.Inner.Allowance.{within};
ghost use Rattle.separation.specs.Lines.{levels};
ghost use Rattle.separation.specs.Searches.{rightmost, leftmost, set_run};
ghost use Rattle.separation.specs.Inner.Searches.{search_of};
ghost use Rattle.separation.specs.Inner.Summaries.{summary_has_other};
ghost use Rattle.separation_call.specs.Inner.ActiveTree.{summary_at, other_net_of, charge_of, Leaves, Below, Renewed};

use drawing::Refusal;
use separation::{NetSummary, Search, merged_word};

// The least power of two that is not below the count: its exponent, the levels of the tree, is the number of binary digits of the count minus one. By the leading zeros, and not by `next_power_of_two`: SCOPE 15.4 says so.
pub(crate) fn leaf_count(coordinate_count: usize) -> usize
    requires at_least_one { 1 ≤ coordinate_count }
    requires at_most_4096 { coordinate_count ≤ 4096 }
    ensures { result ≡ 2 ^ levels coordinate_count }
{
    let last = (coordinate_count - 1) as u64;
    let levels = 64 - u64::leading_zeros(last);
    1usize << levels
}

// The tree and its number of leaves stay two parameters: the tree is a part of the lent scratch, and a struct that lends it for writing would be made anew for each call.

// Whether another net than the excluded one is active below a node.
fn other_below(tree: &[u64], node: usize, excluded: u32) -> bool
    requires { node < length tree.now }
    ensures { result ≡ summary_has_other (summary_at tree.now node) excluded }
{
    let summary = NetSummary::from(tree[node]);
    summary.has_other(excluded)
}

// The same for one line, at the cost of one visit.
pub(crate) fn has_other_at(
    tree: &[u64],
    leaves: usize,
    index: usize,
    excluded: u32,
    remaining: usize,
) -> Result<(bool, usize), Refusal>
    requires leaves { Leaves tree.now leaves }
    requires index_lt_leaves { index < leaves }
    ensures { result ≡ other_net_of (within remaining (visit (free (summary_has_other (summary_at tree.now (leaves + index)) excluded)))) }
{
    if remaining == 0 {
        return Err(Refusal::WorkLimitExceeded);
    }
    let other = other_below(tree, leaves + index, excluded);
    Ok((other, remaining - 1))
}

// The two searches mirror each other and stay two functions: they differ in the bound that they test, in the child that they take first and in all arguments of both calls, so one function would ask for its direction at each of these steps.
// The node, its first leaf and their end are parameters of their own: both calls make all three anew, so that a struct of them would be built and taken apart at every step.
// The last line below `query_end` with another active net, among those from `start` on, before `end`, which are the leaves below the node.
fn search_rightmost(
    tree: &[u64],
    node: usize,
    start: usize,
    end: usize,
    query_end: usize,
    excluded: u32,
    remaining: usize,
) -> Result<Search, Refusal>
    requires { Below tree.now node start end }
    ensures { (h : ℕ) → end ≡ start + 2 ^ h → result ≡ search_of (within remaining (rightmost (λ k a b. summary_has_other (summary_at tree.now k) excluded) query_end h node start)) }
{
    if remaining == 0 {
        return Err(Refusal::WorkLimitExceeded);
    }
    let rest = remaining - 1;
    if start >= query_end {
        return Ok(Search {
            line: None,
            remaining: rest,
        });
    }
    if !other_below(tree, node, excluded) {
        return Ok(Search {
            line: None,
            remaining: rest,
        });
    }
    if end - start == 1 {
        return Ok(Search {
            line: Some(start),
            remaining: rest,
        });
    }
    let middle = (start + end) / 2;
    let low = 2 * node;
    let first = search_rightmost(tree, low + 1, middle, end, query_end, excluded, rest)?;
    if first.line.is_some() {
        return Ok(first);
    }
    search_rightmost(
        tree,
        low,
        start,
        middle,
        query_end,
        excluded,
        first.remaining,
    )
}

// The first line from `query_start` on with another active net, likewise.
fn search_leftmost(
    tree: &[u64],
    node: usize,
    start: usize,
    end: usize,
    query_start: usize,
    excluded: u32,
    remaining: usize,
) -> Result<Search, Refusal>
    requires { Below tree.now node start end }
    ensures { (h : ℕ) → end ≡ start + 2 ^ h → result ≡ search_of (within remaining (leftmost (λ k a b. summary_has_other (summary_at tree.now k) excluded) query_start h node start)) }
{
    if remaining == 0 {
        return Err(Refusal::WorkLimitExceeded);
    }
    let rest = remaining - 1;
    if end <= query_start {
        return Ok(Search {
            line: None,
            remaining: rest,
        });
    }
    if !other_below(tree, node, excluded) {
        return Ok(Search {
            line: None,
            remaining: rest,
        });
    }
    if end - start == 1 {
        return Ok(Search {
            line: Some(start),
            remaining: rest,
        });
    }
    let middle = (start + end) / 2;
    let low = 2 * node;
    let first = search_leftmost(tree, low, start, middle, query_start, excluded, rest)?;
    if first.line.is_some() {
        return Ok(first);
    }
    search_leftmost(
        tree,
        low + 1,
        middle,
        end,
        query_start,
        excluded,
        first.remaining,
    )
}

pub(crate) fn rightmost_other(
    tree: &[u64],
    leaves: usize,
    end: usize,
    excluded: u32,
    remaining: usize,
) -> Result<Search, Refusal>
    requires { Leaves tree.now leaves }
    ensures { (H : ℕ) → leaves ≡ 2 ^ H → result ≡ search_of (within remaining (rightmost (λ k a b. summary_has_other (summary_at tree.now k) excluded) end H 1 0)) }
{
    search_rightmost(tree, 1, 0, leaves, end, excluded, remaining)
}

pub(crate) fn leftmost_other(
    tree: &[u64],
    leaves: usize,
    start: usize,
    excluded: u32,
    remaining: usize,
) -> Result<Search, Refusal>
    requires { Leaves tree.now leaves }
    ensures { (H : ℕ) → leaves ≡ 2 ^ H → result ≡ search_of (within remaining (leftmost (λ k a b. summary_has_other (summary_at tree.now k) excluded) start H 1 0)) }
{
    search_leftmost(tree, 1, 0, leaves, start, excluded, remaining)
}

// A line's summary goes into its leaf, and each node above it up to the root is merged anew. Every node is paid before it is written.
pub(crate) fn set(
    tree: &mut [u64],
    leaves: usize,
    index: usize,
    summary: NetSummary,
    remaining: usize,
) -> Result<usize, Refusal>
    requires leaves { Leaves tree.old leaves }
    requires index_lt_leaves { index < leaves }
    ensures charged { (H : ℕ) → leaves ≡ 2 ^ H → result ≡ charge_of (within remaining (set_run H)) }
    ensures renewed { (H m : ℕ) → leaves ≡ 2 ^ H → result ≡ Ok m → Renewed tree.old tree.new H index summary }
{
    if remaining == 0 {
        return Err(Refusal::WorkLimitExceeded);
    }
    let mut rest = remaining - 1;
    let leaf = leaves + index;
    tree[leaf] = u64::from(summary);
    let mut cursor = leaf / 2;
    // No range counts these nodes: each has half the number of the one before, up to the root.
    while cursor != 0 {
        if rest == 0 {
            return Err(Refusal::WorkLimitExceeded);
        }
        rest -= 1;
        tree[cursor] = merged_word(tree[2 * cursor], tree[2 * cursor + 1]);
        cursor /= 2;
    }
    Ok(rest)
}
