// The version of the library, as one number. A crate of its own, so that an edit of it does not cost the proofs of `exports`.
#![tactic(auto)]

ghost use Rattle.std.specs.Prelude.{◌≡◌};
ghost use Rattle.version.specs.Version.{version};

pub fn number() -> u32
    ensures { result ≡ version }
{
    3_001
}
