// One event of the sweep over an orientation's segments, within the remaining visits.
ghost use Rattle.std.specs.Prelude.{◌≡◌, List, ℕ, ◌+◌, ◌*◌, length, get_or, take, Option, Err, IfErr};
ghost use Rattle.drawing.specs.declared.refusal.Refusal.TheVariants.{WorkLimitExceeded};
ghost use Rattle.laws.specs.Inner.Allowance.{Outcome};
ghost use Rattle.separation.specs.Inner.Searches.{search_of};
ghost use Rattle.separation.specs.Inner.States.{met_by, Gives};
ghost use Rattle.separation_call.specs.Inner.Sweeping.{WithinLines, Gapped, joined, Searchable, WithNearest, Enterable, Leavable, Pays, Entered, TakenOut, AtStart, AtEnd, Begins, Finishes};

use crate::nets::{end_net, start_net};
use crate::tree::{has_other_at, leftmost_other, rightmost_other, set};
use drawing::Refusal;
use floats::float_of_key;
use separation::{Search, Sweeping};

// What a search found joins the figures: the gap of the segment's line and of the line that was found.
fn with_search(
    fixed: &[u64],
    line: usize,
    search: Result<Search, Refusal>,
    state: Sweeping,
) -> Result<Sweeping, Refusal>
    requires { WithinLines search line (length fixed.now) }
    ensures outcome { (ls : List ℕ) (o : Outcome (Option ℕ)) → search ≡ search_of o → take (length ls) fixed.now ≡ ls → WithinLines search line (length ls) → Gapped ls → Gives result (joined ls (get_or ls line 0) (met_by state) o) }
    ensures refusal { IfErr search (λ _. result ≡ Err WorkLimitExceeded) }
{
    // Taken apart by `let .. else`, and not by `?`: SCOPE 15.6 says so. The sweep continues only with found and empty.
    let Ok(answer) = search else {
        return Err(Refusal::WorkLimitExceeded);
    };
    let Some(place) = answer.line else {
        return Ok(Sweeping {
            remaining: answer.remaining,
            ..state
        });
    };
    let there = float_of_key(fixed[place]);
    let here = float_of_key(fixed[line]);
    Ok(state.with_other_line(there, here, answer.remaining))
}

// What a start searches (SCOPE 5.10): whether another net is on its own line, and the nearest line with another net on either side.
fn with_nearest(
    tree: &[u64],
    leaves: usize,
    fixed: &[u64],
    line: usize,
    net: u32,
    state: Sweeping,
) -> Result<Sweeping, Refusal>
    requires { Searchable tree.now fixed.now leaves line }
    ensures { WithNearest tree.now fixed.now leaves line net state result }
{
    let (own, rest) = has_other_at(tree, leaves, line, net, state.remaining)?;
    let begun = state.with_own_line(own, rest);
    let below = rightmost_other(tree, leaves, line, net, begun.remaining);
    let half = with_search(fixed, line, below, begun)?;
    let above = leftmost_other(tree, leaves, line + 1, net, half.remaining);
    with_search(fixed, line, above, half)
}

// A segment starts: its net is counted, and its line's summary is set. `work` holds the counts and after them the tree.
// A start and an end are two functions here and below: a start searches before it is counted, and all that both do is `set`.
fn enter(
    work: &mut [u64],
    n: usize,
    leaves: usize,
    slot: usize,
    line: usize,
    net: u32,
    state: Sweeping,
) -> Result<Sweeping, Refusal>
    requires { Enterable n leaves slot line net work.old }
    ensures pays { Pays leaves state result }
    ensures entered { Entered n leaves slot line net work.old work.new result }
{
    let summary = start_net(work, n, slot, line, net);
    let remaining = set(&mut work[3 * n..], leaves, line, summary, state.remaining)?;
    Ok(Sweeping { remaining, ..state })
}

// A segment ends: its net is counted once less, and its line's summary is set.
fn leave(
    work: &mut [u64],
    n: usize,
    leaves: usize,
    slot: usize,
    line: usize,
    net: u32,
    state: Sweeping,
) -> Result<Sweeping, Refusal>
    requires { Leavable n leaves slot line net work.old }
    ensures pays { Pays leaves state result }
    ensures taken_out { TakenOut n leaves slot line net work.old work.new result }
{
    let summary = end_net(work, n, slot, line, net);
    let remaining = set(&mut work[3 * n..], leaves, line, summary, state.remaining)?;
    Ok(Sweeping { remaining, ..state })
}

// Segment j starts: event n + j.
pub(crate) fn start_event(
    s: &mut [u64],
    n: usize,
    leaves: usize,
    j: usize,
    state: Sweeping,
) -> Result<Sweeping, Refusal>
    requires { AtStart s.old n leaves j }
    ensures { Begins s.old s.new n leaves j state result }
{
    let line = s[4 * n + j] as usize;
    let net = s[5 * n + j] as u32;
    let slot = s[7 * n + j] as usize;
    let seen = with_nearest(&s[12 * n..], leaves, &s[6 * n..], line, net, state)?;
    enter(&mut s[9 * n..], n, leaves, slot, line, net, seen)
}

// Segment j ends: event j.
pub(crate) fn end_event(
    s: &mut [u64],
    n: usize,
    leaves: usize,
    j: usize,
    state: Sweeping,
) -> Result<Sweeping, Refusal>
    requires { AtEnd s.old n leaves j }
    ensures { Finishes s.old s.new n leaves j state result }
{
    let line = s[4 * n + j] as usize;
    let net = s[5 * n + j] as u32;
    let slot = s[7 * n + j] as usize;
    leave(&mut s[9 * n..], n, leaves, slot, line, net, state)
}
