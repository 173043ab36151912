// The ends of a segment in rising order, as every call takes them. SCOPE 2.8.
ghost use Rattle.std.specs.Prelude.{◌≡◌};
ghost use Rattle.drawing.specs.Entries as Entries;

use floats::{greater, lesser};

#[derive(Clone, Copy)]
pub struct Ends {
    pub start: f64,
    pub end: f64,
}

// Exchanged where the end is below the start. Ends that are equal, or of which one is a NaN, stay as they are.
pub fn ends_in_order(start: f64, end: f64) -> Ends
    ensures { result ≡ Entries.ends_in_order start end }
{
    let first = lesser(start, end);
    let last = greater(end, start);
    Ends {
        start: first,
        end: last,
    }
}
