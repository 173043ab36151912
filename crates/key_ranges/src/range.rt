// The keys within a cutoff of one of them. In sorted keys these are adjacent.
ghost use Rattle.std.specs.Prelude.{◌≤◌, ◌<◌, length};
ghost use Rattle.key_ranges.specs.Inner.Reach.{Ascending, Passed, LowerBound, InBounds, Reached};

use floats::{float_of_key, key_of};

// The indices from `from` on, and before `to`. A type of its own, since std's `Range` is not `Copy`.
#[derive(Clone, Copy)]
pub struct Range {
    pub from: usize,
    pub to: usize,
}

// Goes down from `near` to an index before which all keys are less than v. Where the bounds rise from one search to the next it takes no step; with it the answer is right wherever a search begins, so that no law on sums of floats is needed.
fn step_down(keys: &[u64], v: u64, near: usize) -> usize
    requires { near ≤ length keys.now }
    ensures { Ascending keys.now → Passed keys.now v result }
{
    for i in (0..near).rev() {
        if keys[i] < v {
            return i + 1;
        }
    }
    0
}

// The first index whose key is at least v; the number of keys where there is none. The search begins at `near`, and takes as many steps as the answer is away from there: all searches for one end together go once over the keys, while `partition_point` would halve all of them for each wire.
fn first_at_least(keys: &[u64], v: u64, near: usize) -> usize
    requires { near ≤ length keys.now }
    ensures { Ascending keys.now → LowerBound keys.now v result }
{
    for at in step_down(keys, v, near)..keys.len() {
        if v <= keys[at] {
            return at;
        }
    }
    keys.len()
}

// `Excluded(query.fixed - cutoff), Excluded(query.fixed + cutoff)`: the keys strictly between those two, for the wire at index j; the search for each end begins at the same end of `near`.
// With a coordinate that is not -0 and a cutoff above 0, neither difference nor sum is -0, so it does not matter that the two zeros have different keys. No key is the greatest word, so `below + 1` is a word too.
// The caller passes sorted keys, with j and `near` within them: it computes the ranges of all wires, each from the one before. Where j or `near` is past the keys, `near` is returned.
pub fn cutoff_range(keys: &[u64], j: usize, cutoff: f64, near: Range) -> Range
    ensures { Ascending keys.now × (j < length keys.now) × InBounds (length keys.now) near → Reached keys.now j cutoff result }
{
    let n = keys.len();
    if n <= j || n < near.from || n < near.to {
        return near;
    }
    let fixed = float_of_key(keys[j]);
    let below = key_of(fixed - cutoff);
    let above = key_of(fixed + cutoff);
    let first = below + 1;
    Range {
        from: first_at_least(keys, first, near.from),
        to: first_at_least(keys, above, near.to),
    }
}
