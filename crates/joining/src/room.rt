// Whether the lent output columns have room for the pieces.
ghost use Rattle.std.specs.Prelude.{◌≡◌};
ghost use Rattle.drawing.specs.Conditions.{short_output};

// SCOPE 7.8: the shortest of the columns of these lengths has fewer entries than are needed.
pub fn short_output(needed: usize, lengths: &[usize]) -> bool
    ensures { result ≡ short_output needed lengths.now }
{
    lengths.iter().any(|length| *length < needed)
}
