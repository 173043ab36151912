// The visits of a report. SCOPE 4.1, 15.1.
ghost use Rattle.std.specs.Prelude.{◌≡◌, ◌-◌};

// The visits used are the allowance less the remaining visits. No walk leaves more than it was allowed; where more remain, none was used.
pub fn visits_used(allowance: usize, remaining: usize) -> usize
    ensures { result ≡ allowance - remaining }
{
    if allowance < remaining {
        return 0;
    }
    allowance - remaining
}
