// An event's wire meets the active wires within the cutoff.
ghost use Rattle.std.specs.Prelude.{◌≡◌, false, cond, ◌+◌, ◌≤◌, max, get_or, set};
ghost use Rattle.density_call.specs.Inner.Meeting.{Meetable, CountsOnly, Meets, with_gap, Countable, with_neighbor, count_after, Visitable, Visits};

use bitset::{last_below, rest_below};
use drawing::Refusal;
use floats::{absolute, float_of_key, lesser};

// How many of the wires met are of another net; how many of these become congested or cease to be; the greatest count among them; the least gap so far; the remaining visits.
// The least gap is a NaN where there is none yet (`no_gap`). These figures are copied at each visit: with an enum, whose copies wait for the stores that made it, they took two thirds of the loop's time.
#[derive(Clone, Copy)]
pub(crate) struct Meeting {
    pub neighbors: usize,
    pub changed: usize,
    pub highest: usize,
    pub least: f64,
    pub remaining: usize,
}

// The gap to a neighbor joins the least gap where it is above 0: it is taken unless the least gap is below it, and a NaN is below nothing.
// Of two equal gaps either will do here, and `lesser` is one instruction; `least_with`, which keeps the old one, is a comparison and a choice, and the loop took 6 to 8% longer.
fn with_gap(least: f64, gap: f64) -> f64
    ensures { result ≡ with_gap least gap }
{
    if 0.0 < gap { lesser(gap, least) } else { least }
}

// A neighbor's count after the event: it rises by one at a start and falls by one at an end.
fn count_after(starts: bool, count: u64) -> u64
    requires count_bound { count ≤ 4096 }
    requires positive_at_end { starts ≡ false → 1 ≤ count }
    ensures { result ≡ count_after starts count }
{
    if starts { count + 1 } else { count - 1 }
}

// The greatest count so far; only a start's counts are needed.
fn highest_after(starts: bool, highest: usize, after: u64) -> usize
    ensures { result ≡ cond starts (max highest after) highest }
{
    if starts {
        highest.max(after as usize)
    } else {
        highest
    }
}

// A neighbor, whose count is in word `at`. The lesser of its counts before and after the event is 0 where it becomes congested or ceases to be.
// It has one path for starts and ends: with a path for each, the loop over the active wires took a fifth longer.
fn meet_neighbor(s: &mut [u64], at: usize, starts: bool, gap: f64, meeting: Meeting) -> Meeting
    requires { Countable s.old at starts meeting }
    ensures value { result ≡ with_neighbor starts (get_or s.old at 0) gap meeting }
    ensures count_stored { s.new ≡ set s.old at (count_after starts (get_or s.old at 0)) }
{
    let count = s[at];
    let after = count_after(starts, count);
    s[at] = after;
    Meeting {
        neighbors: meeting.neighbors + 1,
        changed: meeting.changed + usize::from(count.min(after) == 0),
        highest: highest_after(starts, meeting.highest, after),
        least: with_gap(meeting.least, gap),
        remaining: meeting.remaining - 1,
    }
}

// One visit, that of wire i: it is paid, and if the wire is of another net it is a neighbor.
// The event's net, coordinate and kind stay parameters: one caller has them, as values that its loop reads.
#[tactic(auto, unfolding(floats::specs::Values::gap_of))]
fn visit(
    s: &mut [u64],
    n: usize,
    i: usize,
    net: u64,
    here: f64,
    starts: bool,
    meeting: Meeting,
) -> Meeting
    requires { Visitable s.old n i net starts meeting }
    ensures { Visits s.old s.new n i net here starts meeting result }
{
    let other = s[5 * n + i];
    if other == net {
        return Meeting {
            remaining: meeting.remaining - 1,
            ..meeting
        };
    }
    let there = float_of_key(s[4 * n + i]);
    let gap = absolute(there - here);
    meet_neighbor(s, 8 * n + i, starts, gap, meeting)
}

// The start or the end of wire j: the active wires of its range are visited from the greatest index down.
pub(crate) fn meet(
    s: &mut [u64],
    n: usize,
    j: usize,
    starts: bool,
    least: f64,
    remaining: usize,
) -> Result<Meeting, Refusal>
    requires { Meetable starts s.old n j }
    ensures meets { Meets starts s.old s.new n j least remaining result }
    ensures counts_only { CountsOnly n s.old s.new }
{
    let here = float_of_key(s[4 * n + j]);
    let net = s[5 * n + j];
    let from = s[6 * n + j] as usize;
    let mut to = s[7 * n + j] as usize;
    let mut rest = rest_below(&s[9 * n..], to);
    let mut meeting = Meeting {
        neighbors: 0,
        changed: 0,
        highest: 0,
        least,
        remaining,
    };
    while let Some((i, below)) = last_below(&s[9 * n..], from, to, rest) {
        if meeting.remaining == 0 {
            return Err(Refusal::WorkLimitExceeded);
        }
        meeting = visit(s, n, i, net, here, starts, meeting);
        to = i;
        rest = below;
    }
    Ok(meeting)
}
