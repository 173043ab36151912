// Zeros, finiteness, the lesser and the greater of two floats, and the absolute value, by comparisons and negation (SCOPE 15.8).
ghost use Rattle.std.specs.Prelude.{◌≡◌};
ghost use Rattle.std.specs.Float.Ieee.Scale as Scale;
ghost use Rattle.floats.specs.Values as Values;

// Both zeros become +0, every other float is unchanged.
pub fn canonical_zero(x: f64) -> f64
    ensures { result ≡ Values.canonical_zero x }
{
    if x == 0.0 { 0.0 } else { x }
}

// Neither an infinity nor a NaN.
pub fn is_finite(x: f64) -> bool
    ensures { result ≡ Scale.finite x }
{
    x - x == 0.0
}

// The lesser of two floats by comparison: the second where it is below the first, else the first.
pub fn lesser(a: f64, b: f64) -> f64
    ensures { result ≡ Values.lesser_of a b }
{
    if b < a { b } else { a }
}

// The greater of two floats by comparison: the second where the first is below it, else the first.
pub fn greater(a: f64, b: f64) -> f64
    ensures { result ≡ Values.greater_of a b }
{
    if a < b { b } else { a }
}

// The float without its sign; a NaN stays a NaN.
pub fn absolute(x: f64) -> f64
    ensures { result ≡ Values.abs_of x }
{
    if x < 0.0 { -x } else { canonical_zero(x) }
}
