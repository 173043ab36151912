// For each wire the indices of those within the cutoff. The wires are in the order of their fixed coordinates, so that these indices are adjacent, and both ends of the range ascend from wire to wire: each search begins at the last wire's answer, and all searches for one end together take at most n steps.
ghost use Rattle.density_call.specs.Inner.Ranges.{Rangeable, RangesOnly, FillsRanges};

use key_ranges::{Range, cutoff_range};

// Column 4 holds the keys of n fixed coordinates. Column 6 gets the first index of each wire's range, column 7 the index after its last one.
pub(crate) fn fill_ranges(s: &mut [u64], n: usize, cutoff: f64)
    requires { Rangeable s.old n }
    ensures frame { RangesOnly n s.old s.new }
    ensures ranges { FillsRanges s.old s.new n cutoff }
{
    // By an index: a column of the slice is read while two others are written.
    let mut range = Range { from: 0, to: 0 };
    for j in 0..n {
        range = cutoff_range(&s[4 * n..5 * n], j, cutoff, range);
        s[6 * n + j] = range.from as u64;
        s[7 * n + j] = range.to as u64;
    }
}
