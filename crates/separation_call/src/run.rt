// The sweep over all events of one orientation. The scratch holds the tables of its n segments (9 n words) and after them the words that the sweep changes: 3 n for the active nets, then the tree.
// `density_call` has a sweep of its own, and says why.
ghost use Rattle.std.specs.Prelude.{◌≡◌, List, [], ℕ, ◌<◌, ◌^◌, length};
ghost use Rattle.laws.specs.Lists.{Mem};
ghost use Rattle.laws.specs.Inner.Allowance.{within};
ghost use Rattle.rows.specs.Rows.{Row};
ghost use Rattle.separation.specs.Lines.{lines, levels};
ghost use Rattle.separation.specs.Walk.{sweep};
ghost use Rattle.separation.specs.Inner.States.{swept_of};
ghost use Rattle.separation_call.specs.Inner.Sweeping.{Ready, AtEvent, AtFirst, Handles};

use crate::sweep::{end_event, start_event};
use drawing::Refusal;
use separation::{Found, Sweeping};

// Event e: below n it is the end of segment e, else the start of segment e - n.
fn handle_event(
    s: &mut [u64],
    n: usize,
    leaves: usize,
    e: usize,
    state: Sweeping,
) -> Result<Sweeping, Refusal>
    requires { AtEvent s.old n leaves e }
    ensures { Handles s.old s.new n leaves e state result }
{
    if e < n {
        return end_event(s, n, leaves, e, state);
    }
    start_event(s, n, leaves, e - n, state)
}

// The events in order, from no active segment and no gap yet.
pub(crate) fn run_events(
    s: &mut [u64],
    n: usize,
    leaves: usize,
    allowance: usize,
) -> Result<Found, Refusal>
    requires { AtFirst s.old n leaves }
    ensures { (l : List Row) (F : List ℕ) (H : ℕ) → length l ≡ n → leaves ≡ 2 ^ H → Ready l F H 0 [] s.old → ((a : Row) → Mem a l → a.start < a.end) → H ≡ levels (length (lines l)) → result ≡ swept_of (within allowance (sweep l)) }
{
    let mut state = Sweeping::at_start(allowance);
    // By an index and not over the slice: each event is read while the words after the tables are written.
    for q in 0..2 * n {
        let e = s[q] as usize;
        state = handle_event(s, n, leaves, e, state)?;
    }
    Ok(Found::from(state))
}
