// One orientation's segments: their tables are made in the scratch, and the sweep runs over them.
ghost use Rattle.std.specs.Prelude.{◌≡◌, List, ◌<◌, ◌^◌, length, drop};
ghost use Rattle.laws.specs.Lists.{Mem};
ghost use Rattle.laws.specs.Inner.Sort.{Sorted};
ghost use Rattle.laws.specs.Inner.Allowance.{within};
ghost use Rattle.drawing.specs.Entries as Entries;
ghost use Rattle.drawing.specs.Entries.{lent_segments, segments};
ghost use Rattle.rows.specs.Rows.{Row, rows_in_order, oriented};
ghost use Rattle.rows.specs.Inner.Tables.{RowsOrdered};
ghost use Rattle.separation.specs.Lines.{lines};
ghost use Rattle.separation.specs.Walk as Walk;
ghost use Rattle.separation_call.specs.Inner.Prepared.{Prepared};
ghost use Rattle.separation.specs.Inner.States.{swept_of};
ghost use Rattle.separation_call.specs.Inner.Sweeping.{Gapped, AtTables, AtRows, AtColumns};

use crate::line_numbers::number_lines;
use crate::run::run_events;
use crate::slots::assign_slots;
use crate::tree::leaf_count;
use drawing::{Refusal, Segments, clear};
use rows::{order_events, order_rows, spread_rows};
use separation::Found;

// Makes the tables of n rows: their indices in order are stored from word `from` on, and the rows themselves `table` words later. The answer is the number of lines.
fn make_tables(s: &mut [u64], n: usize, from: usize, table: usize) -> usize
    requires { AtRows s.old n from table }
    ensures { (l : List Row) → length l ≡ n → Sorted rows_in_order l → ((a : Row) → Mem a l → a.net < 2 ^ 32) → RowsOrdered l table (drop from s.old) → Prepared l s.new × (result ≡ length (lines l)) }
{
    spread_rows(s, n, from, table);
    order_events(s, n);
    let many = number_lines(s, n);
    assign_slots(s, n);
    many
}

// The words after the tables are cleared: no segment is active yet. Then the sweep runs.
fn sweep_tables(s: &mut [u64], n: usize, many: usize, allowance: usize) -> Result<Found, Refusal>
    requires { AtTables s.old n many }
    ensures { (l : List Row) → length l ≡ n → many ≡ length (lines l) → Prepared l s.old → Sorted rows_in_order l → ((a : Row) → Mem a l → (a.net < 2 ^ 32) × (a.start < a.end)) → Gapped (lines l) → result ≡ swept_of (within allowance (Walk.sweep l)) }
{
    let leaves = leaf_count(many);
    let end = 12 * n + 2 * leaves;
    clear(&mut s[9 * n..end]);
    run_events(s, n, leaves, allowance)
}

// SCOPE 5.8: "An orientation with fewer than two segments costs nothing."
pub(crate) fn sweep_along(
    s: &mut [u64],
    wanted: u8,
    segments: &Segments<'_>,
    allowance: usize,
) -> Result<Found, Refusal>
    requires { AtColumns (length s.old) wanted (lent_segments segments.now) }
    ensures { result ≡ swept_of (within allowance (Walk.along (oriented wanted (Entries.segments (lent_segments segments.now))))) }
{
    let total = segments.net.len();
    let from = 16 * total;
    let n = order_rows(&mut s[from..], wanted, segments);
    if n < 2 {
        return Ok(Found {
            minimum: None,
            minimum_positive: None,
            remaining: allowance,
        });
    }
    let many = make_tables(s, n, from, total);
    sweep_tables(s, n, many, allowance)
}
