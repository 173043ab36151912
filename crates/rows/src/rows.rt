// The segments of one orientation as rows of four words, sorted and copied into columns.
ghost use Rattle.std.specs.Prelude.{◌≡◌, ◌+◌, ◌*◌, ◌≤◌, ◌<◌, length, drop};
ghost use Rattle.std.proofs.Math.Seq.{paste};
ghost use Rattle.floats.specs.TotalOrder.{key_of};
ghost use Rattle.floats.specs.Values.{canonical_zero};
ghost use Rattle.drawing.specs.Entries.{lent_segments, as_taken};
ghost use Rattle.rows.specs.Rows.{words};
ghost use Rattle.rows.specs.Inner.Placed.{row_count, rows_placed, row_column, rows_spread};
ghost use Rattle.rows.specs.Inner.Tables.{Orderable, Spreadable, RowAdded, Gathered};

use drawing::{Segment, Segments, ends_in_order};
use floats::{canonical_zero, key_of};
use list_checks::segments_differ;
use sorting::{fill_places, rows_fit, sort_indices};

// The four words of a row, from `at` on: the ends in rising order, then zeros as +0.
fn put_row(s: &mut [u64], at: usize, segment: Segment)
    requires { at + 4 ≤ length s.old }
    ensures { let taken = as_taken segment in s.new ≡ paste s.old at (words (record { net = taken.net; line = key_of (canonical_zero taken.fixed); start = key_of (canonical_zero taken.start); end = key_of (canonical_zero taken.end) })) 4 }
{
    let ends = ends_in_order(segment.start, segment.end);
    let line = key_of(canonical_zero(segment.fixed));
    let first = key_of(canonical_zero(ends.start));
    let last = key_of(canonical_zero(ends.end));
    s[at] = line;
    s[at + 1] = first;
    s[at + 2] = last;
    s[at + 3] = u64::from(segment.net);
}

// Appends the row of a segment to the n rows of the table that begins at word t, where its orientation is the wanted one. Returns how many rows there are then.
fn add_row(p: &mut [u64], t: usize, n: usize, wanted: u8, segment: Segment) -> usize
    requires { t + 4 * n + 4 ≤ length p.old }
    ensures { RowAdded t n wanted (as_taken segment) p.old p.new result }
{
    if segment.orientation != wanted {
        return n;
    }
    put_row(p, t + 4 * n, segment);
    n + 1
}

// The rows of the segments with the wanted orientation byte, in a table that begins after a word for each segment. Returns how many there are.
fn gather_rows(p: &mut [u64], wanted: u8, segments: &Segments<'_>) -> usize
    requires { Orderable (lent_segments segments.now) (length p.old) }
    ensures { Gathered (length segments.now.net.now) wanted (lent_segments segments.now) p.old p.new result }
{
    let t = segments.net.len();
    let mut n = 0;
    for i in 0..t {
        n = add_row(p, t, n, wanted, segments.at(i));
    }
    n
}

// The indices of these rows in sorted order, in the first words of p, and after a word for each segment the rows themselves. Returns how many there are. Where the columns differ in length or p is too short, it returns 0 and p is left as it is.
pub fn order_rows(p: &mut [u64], wanted: u8, segments: &Segments<'_>) -> usize
    ensures value { result ≡ row_count wanted (lent_segments segments.now) (length p.old) }
    ensures p_after { p.new ≡ rows_placed wanted (lent_segments segments.now) p.old }
{
    if segments_differ(segments) {
        return 0;
    }
    if p.len() / 5 < segments.net.len() {
        return 0;
    }
    let n = gather_rows(p, wanted, segments);
    fill_places(&mut p[0..n]);
    sort_indices(p, n, segments.net.len(), 4);
    n
}

// One word of each row, in the order of the rows, from word `to` on. The indices of the rows are stored from word `from` on, their table `table` words further on.
fn spread_column(s: &mut [u64], n: usize, from: usize, table: usize, word: usize, to: usize)
    requires { Spreadable n from table s.old × (word < 4) × (to + n ≤ from) }
    ensures { s.new ≡ paste s.old to (row_column n table word (drop from s.old)) n }
{
    for j in 0..n {
        let row = s[from + j] as usize;
        let value = s[from + table + 4 * row + word];
        s[to + j] = value;
    }
}

// The sorted rows column by column, from word 2 n on: the ends, the starts, the lines and the nets. The last column is written first, so that nothing after a written column changes any more. A slice that has no room for the columns, or not a whole row for every index, is left as it is.
pub fn spread_rows(s: &mut [u64], n: usize, from: usize, table: usize)
    ensures { s.new ≡ rows_spread n from table s.old }
{
    if from / 6 < n {
        return;
    }
    if s.len() < from {
        return;
    }
    if !rows_fit(&s[from..], n, table, 4) {
        return;
    }
    spread_column(s, n, from, table, 3, 5 * n);
    spread_column(s, n, from, table, 0, 4 * n);
    spread_column(s, n, from, table, 1, 3 * n);
    spread_column(s, n, from, table, 2, 2 * n);
}
