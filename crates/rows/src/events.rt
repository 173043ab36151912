// The events of one orientation's rows, sorted. SCOPE 5.9.
ghost use Rattle.std.specs.Prelude.{◌≡◌};
ghost use Rattle.rows.specs.Inner.Placed.{events_placed};

use sorting::{fill_places, sort_indices};

// Event j < n is the end of row j, event n + j its start; the keys of both are stored from word 2 n on, in this order. Ties are sorted by the number, so that ends come before starts at one coordinate, and then by the index. A slice that is too short for numbers and keys is left as it is.
pub fn order_events(s: &mut [u64], n: usize)
    ensures { s.new ≡ events_placed n s.old }
{
    if s.len() / 4 < n {
        return;
    }
    let m = 2 * n;
    fill_places(&mut s[0..m]);
    sort_indices(s, m, m, 1);
}
