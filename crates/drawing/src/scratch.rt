// Clearing: of the whole scratch when a call is done (SCOPE 6.5), and of a part that must be zero before a sweep.
ghost use Rattle.std.specs.Prelude.{◌≡◌, length, replicate};

pub fn clear(scratch: &mut [u64])
    ensures { scratch.new ≡ replicate (length scratch.old) 0 }
{
    scratch.fill(0);
}
