// The walk of one segment over the stored tree (SCOPE 5.5 to 5.7), within the remaining visits: a loop over the parts of the tree, with a stack of those that are still to be walked.
// The tree's words, the box, the threshold, the marks and the groups stay parameters of each function: they are lent by different owners, and each contract speaks of them one by one (`Part`, `Near`, `NetMarks`), so that a struct of them would be taken apart in every contract.
ghost use Rattle.std.specs.Prelude.{◌≡◌, true, List, ℕ, ◌+◌, ◌^◌, ◌≤◌, ◌<◌, length, get_or, IfErr};
ghost use Rattle.laws.specs.Charged.{free, visit, runs};
ghost use Rattle.laws.specs.Inner.Allowance.{within};
ghost use Rattle.bitset.specs.Inner.Members.{member};
ghost use Rattle.drawing.specs.declared.refusal.Refusal.TheVariants.{WorkLimitExceeded};
ghost use Rattle.drawing.specs.Entries.{Exemption};
ghost use Rattle.drawing.specs.Inner.LeastFloats.{Number};
ghost use Rattle.clearance.specs.Tree.{bounds_of};
ghost use Rattle.boxes.specs.Inner.Fitting.{FitBox};
ghost use Rattle.clearance_call.specs.Inner.Stored.{stored_tree, leaves_from};
ghost use Rattle.clearance.specs.Walk.{with_pair};
ghost use Rattle.clearance.specs.Inner.State.{so_far, outcome_of};
ghost use Rattle.clearance_call.specs.Inner.Nested.{Nested, TreeBelow, leaf_visit};
ghost use Rattle.clearance_call.specs.Inner.Walking.{Part, Near, Walkable, Halved, NetMarks, Walks, Steps};
ghost use Rattle.clearance_call.specs.Inner.Marks.{MarksOf};

use crate::marks::is_marked;
use crate::stored::fit_box_from;
use boxes::Aabb;
use clearance::{
    Halves, Subtree, Walking, clearance_subtree_can_contribute, edges_below, nearer_first,
    visit_pair,
};
use drawing::Refusal;

// The box around the n leaves from leaf i on.
pub(crate) fn bounds_of(words: &[u64], i: usize, n: usize) -> Aabb
    requires part { Part words.now i n }
    requires nested { Nested (stored_tree n words.now i n) }
    ensures { (k : ℕ) → n ≤ k → result ≡ bounds_of (stored_tree k words.now i n) }
{
    if n == 1 {
        fit_box_from(words, 9 * i)
    } else {
        fit_box_from(words, 9 * (i + n / 2) + 4)
    }
}

// The visit of leaf i, at the given distance: charged first, then counted unless the leaf is marked as exempt.
fn visit_leaf(
    marks: &[u64],
    groups: &[u64],
    i: usize,
    distance: f64,
    threshold: f64,
    state: Walking,
) -> Result<Walking, Refusal>
    requires i_in_bounds { i < length groups.now }
    requires number { Number distance }
    requires remaining_bound { state.violations + state.remaining < 2 ^ 64 }
    ensures outcome { outcome_of result ≡ within state.remaining (visit (free (with_pair (member marks.now (get_or groups.now i 0)) threshold distance (so_far state)))) }
    ensures refusal { IfErr result (λ r. r ≡ WorkLimitExceeded) }
{
    // `visit_pair` tests this too. With the test before the mark is read, the compiler bounds the loop over leaves by the remaining visits, so the test costs nothing there.
    if state.remaining == 0 {
        return Err(Refusal::WorkLimitExceeded);
    }
    // Each branch calls with a constant: with the mark itself as an argument, `visit_pair` would test it once more.
    if is_marked(marks, groups, i) {
        return visit_pair(true, distance, threshold, state);
    }
    visit_pair(false, distance, threshold, state)
}

// The halves of the n leaves from leaf i on, for a segment with the given box: the nearer half first, the left one on a tie.
fn halve(words: &[u64], i: usize, n: usize, bounds: Aabb) -> Halves
    requires part { Part words.now i n }
    requires two_or_more { 1 < n }
    requires nested { Nested (stored_tree n words.now i n) }
    ensures { Halved words.now i n bounds result }
{
    let half = n / 2;
    let middle = i + half;
    let rest = n - half;
    let left = bounds.distance(bounds_of(words, i, half));
    let right = bounds.distance(bounds_of(words, middle, rest));
    nearer_first(i, half, left, middle, rest, right)
}

// A part with fewer leaves is halved without a test of its farthest edges: it has few branches whose distances could be spared.
const EDGE_TEST_LEAVES: usize = 8;

// Whether the n leaves from leaf i on, whose box is at distance `lower`, are known to be nearer than the threshold, by the farthest edges of that box. Then nothing of the part can be pruned, and the distances of its branches need not be computed.
fn part_below(words: &[u64], i: usize, n: usize, lower: f64, bounds: Aabb, threshold: f64) -> bool
    requires part { Part words.now i n }
    requires near { Near lower bounds words.now i n }
    requires fit_and_nested { FitBox bounds × Nested (stored_tree n words.now i n) }
    ensures { result ≡ true → (k : ℕ) → n ≤ k → TreeBelow bounds threshold (stored_tree k words.now i n) }
{
    if n < EDGE_TEST_LEAVES {
        return false;
    }
    // The box itself is not nearer. After this test the threshold is above a distance, and so above 0, without which `edges_below` implies nothing of the boxes in a part.
    if !(lower < threshold) {
        return false;
    }
    edges_below(bounds, bounds_of(words, i, n), threshold)
}

// The visits of the n leaves from leaf i on, one after another. Where none of them can be pruned their order decides nothing, so this is their walk.
fn visit_leaves(
    words: &[u64],
    i: usize,
    n: usize,
    bounds: Aabb,
    threshold: f64,
    marks: &[u64],
    groups: &[u64],
    start: Walking,
) -> Result<Walking, Refusal>
    requires part { Part words.now i n }
    requires net_marks { NetMarks marks.now groups.now words.now }
    requires remaining_bound { start.violations + start.remaining < 2 ^ 64 }
    requires nested { Nested (stored_tree n words.now i n) }
    ensures outcome { (ex : List Exemption) (net : ℕ) → MarksOf marks.now groups.now words.now ex net → outcome_of result ≡ within start.remaining (runs (leaf_visit ex threshold net bounds) (so_far start) (leaves_from words.now i n)) }
    ensures refusal { IfErr result (λ r. r ≡ WorkLimitExceeded) }
{
    let mut state = start;
    for j in i..i + n {
        let distance = bounds.distance(fit_box_from(words, 9 * j));
        state = visit_leaf(marks, groups, j, distance, threshold, state)?;
    }
    Ok(state)
}

// The step at a part: the part is done, or its halves are to be walked.
#[derive(Clone, Copy)]
enum Step {
    Done(Walking),
    Split(Halves),
}

// The step at one part, for a segment with the given box, whose net has these marks. The part is pruned, or its leaves are visited, or it is halved.
fn look_at_part(
    words: &[u64],
    part: Subtree,
    bounds: Aabb,
    threshold: f64,
    marks: &[u64],
    groups: &[u64],
    state: Walking,
) -> Result<Step, Refusal>
    requires walkable { Walkable words.now part.first part.count part.lower bounds state }
    requires net_marks { NetMarks marks.now groups.now words.now }
    ensures outcome { (ex : List Exemption) (net : ℕ) → MarksOf marks.now groups.now words.now ex net → Steps ex threshold words.now bounds net part state result }
    ensures refusal { IfErr result (λ r. r ≡ WorkLimitExceeded) }
{
    let i = part.first;
    let n = part.count;
    let lower = part.lower;
    if !clearance_subtree_can_contribute(lower, threshold, state.least) {
        return Ok(Step::Done(state));
    }
    if n == 1 {
        let visited = visit_leaf(marks, groups, i, lower, threshold, state)?;
        return Ok(Step::Done(visited));
    }
    if part_below(words, i, n, lower, bounds, threshold) {
        let visited = visit_leaves(words, i, n, bounds, threshold, marks, groups, state)?;
        return Ok(Step::Done(visited));
    }
    Ok(Step::Split(halve(words, i, n, bounds)))
}

// The stack never holds more parts: a tree has at most 4,096 leaves, 2 to the power 12, and each part on the stack has at most half of the leaves, rounded up, of the part that was halved.
const DEPTH: usize = 12;

// The walk of a segment with the given box, whose net has these marks, over one part of the tree. Where a part is halved, its nearer half is next and its farther half is put on the stack, `waiting`; where a part is done, the one on top of the stack is next.
// The stack is an array with a count beside it: a vector of fixed room would answer a Result or an Option at every push and pop, for cases that its depth rules out.
pub(crate) fn visit_segment_candidates(
    words: &[u64],
    whole: Subtree,
    bounds: Aabb,
    threshold: f64,
    marks: &[u64],
    groups: &[u64],
    start: Walking,
) -> Result<Walking, Refusal>
    requires walkable { Walkable words.now whole.first whole.count whole.lower bounds start × (whole.count ≤ 4096) }
    requires net_marks { NetMarks marks.now groups.now words.now }
    ensures outcome { (ex : List Exemption) (net : ℕ) → MarksOf marks.now groups.now words.now ex net → Walks ex threshold words.now whole.first whole.count bounds net start result }
    ensures refusal { IfErr result (λ r. r ≡ WorkLimitExceeded) }
{
    let mut part = whole;
    let mut state = start;
    let mut waiting = [part; DEPTH];
    let mut top = 0;
    // No range counts these parts: which are halved is known at the step only.
    loop {
        let step = look_at_part(words, part, bounds, threshold, marks, groups, state)?;
        match step {
            Step::Split(halves) => {
                let farther = halves.farther;
                let nearer = halves.nearer;
                waiting[top] = farther;
                top += 1;
                part = nearer;
            }
            Step::Done(next) => {
                state = next;
                if top == 0 {
                    return Ok(state);
                }
                top -= 1;
                part = waiting[top];
            }
        }
    }
}
