// One orientation's wires: their tables are made in the scratch, and the sweep runs over them.
ghost use Rattle.std.specs.Prelude.{◌≡◌, map, eqb, length};
ghost use Rattle.laws.specs.Inner.Allowance.{within};
ghost use Rattle.drawing.specs.Entries as Entries;
ghost use Rattle.drawing.specs.Entries.{lent_segments};
ghost use Rattle.rows.specs.Rows as Rows;
ghost use Rattle.congestion.specs.Wires.{cutoff_of};
ghost use Rattle.congestion.specs.Walk.{sweep, along};
ghost use Rattle.density_call.specs.Inner.Sweeping.{swept_of};
ghost use Rattle.density_call.specs.Inner.Measuring.{wire_of_row, Cutoff, AtRows, AtColumns, none_of};

use crate::ranges::fill_ranges;
use crate::run::run_events;
use congestion::Found;
use drawing::{Refusal, Segments, clear};
use rows::{order_events, order_rows, spread_rows};

// Nothing is swept, and no visit is paid.
pub(crate) fn nothing_found(allowance: usize) -> Found
    ensures { result ≡ none_of allowance }
{
    Found {
        congested_length: 0.0,
        pair_overlap_length: 0.0,
        peak_close_neighbors: 0,
        minimum_positive: None,
        remaining: allowance,
    }
}

// Makes the tables of n rows: their indices in order are stored from word `from` on, and the rows themselves `table` words later. The words after the tables are cleared: no wire is active yet. Then the sweep runs.
fn sweep_rows(
    s: &mut [u64],
    n: usize,
    from: usize,
    table: usize,
    cutoff: f64,
    allowance: usize,
) -> Result<Found, Refusal>
    requires at_rows { AtRows s.old n from table }
    requires cutoff { Cutoff cutoff }
    ensures { (a : AtRows s.old n from table) → result ≡ swept_of (within allowance (sweep (cutoff_of cutoff) (map (wire_of_row a.across) a.l))) }
{
    spread_rows(s, n, from, table);
    order_events(s, n);
    fill_ranges(s, n, cutoff);
    clear(&mut s[8 * n..10 * n + 1]);
    run_events(s, n, allowance)
}

// SCOPE 5.12: "`oriented.len() >= 2`": fewer than two wires cost nothing.
pub(crate) fn sweep_along(
    s: &mut [u64],
    wanted: u8,
    segments: &Segments<'_>,
    cutoff: f64,
    allowance: usize,
) -> Result<Found, Refusal>
    requires at_columns { AtColumns (length s.old) wanted (lent_segments segments.now) }
    requires cutoff { Cutoff cutoff }
    ensures { result ≡ swept_of (within allowance (along (cutoff_of cutoff) (map (wire_of_row (eqb wanted 1)) (Rows.oriented wanted (Entries.segments (lent_segments segments.now)))))) }
{
    let total = segments.net.len();
    let from = 16 * total;
    let n = order_rows(&mut s[from..], wanted, segments);
    if n < 2 {
        return Ok(nothing_found(allowance));
    }
    sweep_rows(s, n, from, total, cutoff, allowance)
}
