// What a sweep found, and what both sweeps found together.
ghost use Rattle.std.specs.Prelude.{◌≡◌};
ghost use Rattle.separation.specs.Walk.{lesser_figures};
ghost use Rattle.separation.specs.Inner.States.{found_by};

use drawing::minimum_option;

// The figures of one orientation or of both, and the remaining visits.
#[derive(Clone, Copy)]
pub struct Found {
    pub minimum: Option<f64>,
    pub minimum_positive: Option<f64>,
    pub remaining: usize,
}

// The lesser of each figure, with the remaining visits of the second sweep.
pub fn combined(across: Found, down: Found) -> Found
    ensures figures { found_by result ≡ lesser_figures (found_by across) (found_by down) }
    ensures remaining { result.remaining ≡ down.remaining }
{
    let minimum = minimum_option(across.minimum, down.minimum);
    let minimum_positive = minimum_option(across.minimum_positive, down.minimum_positive);
    Found {
        minimum,
        minimum_positive,
        remaining: down.remaining,
    }
}
