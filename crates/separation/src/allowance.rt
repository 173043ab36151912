// Whether an allowance is too small for any walk over the segments.
ghost use Rattle.std.specs.Prelude.{◌≡◌};
ghost use Rattle.separation.specs.Inner.States.{too_few};

// Each segment that is swept costs at least 5 visits: `has_other_at`, two searches and a `set` at its start, a `set` at its end. Five times the number of segments might overflow; a fifth of the allowance cannot.
pub fn too_few(allowance: usize, segments: usize) -> bool
    ensures { result ≡ too_few allowance segments }
{
    allowance / 5 < segments
}
