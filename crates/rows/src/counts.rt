// How many segments a sweep takes, from their orientation bytes alone: known before any table is made. SCOPE 4.5, 5.8.
ghost use Rattle.std.specs.Prelude.{◌≡◌};
ghost use Rattle.rows.specs.Rows.{at_least_two};
ghost use Rattle.rows.specs.Inner.Rows.{of_orientation, segments_to_sweep};

fn count_oriented(orientation: &[u8], wanted: u8) -> usize
    ensures { result ≡ of_orientation wanted orientation.now }
{
    orientation.iter().filter(|byte| **byte == wanted).count()
}

fn at_least_two(n: usize) -> usize
    ensures { result ≡ at_least_two n }
{
    if n < 2 { 0 } else { n }
}

// The segments in orientations holding at least two.
pub fn segments_to_sweep(orientation: &[u8]) -> usize
    ensures { result ≡ segments_to_sweep orientation.now }
{
    let across = count_oriented(orientation, 1);
    let down = count_oriented(orientation, 0);
    at_least_two(across) + at_least_two(down)
}
