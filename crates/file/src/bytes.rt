// The values of a file: numbers and floats of a fixed width, the most significant byte first.
ghost use Rattle.std.specs.Prelude.{◌≡◌, ◌+◌, ◌≤◌, ℕ, List, length, take, drop};
ghost use Rattle.std.specs.Float.{binary64};
ghost use Rattle.std.specs.Float.Ieee.{of_bits};
ghost use Rattle.file.specs.Reading.{big_endian};

use floats::float_of_bits;

// A value that is read from `width` bytes.
pub(crate) trait Field: Copy {
    ghost width: { ℕ };

    ghost value: { List ℕ → Self };

    fn read_at(bytes: &[u8], at: usize) -> Self
        requires { at + width ≤ length bytes.now }
        ensures { result ≡ value (take width (drop at bytes.now)) };
}

impl Field for u8 {
    ghost width = { 1 };

    ghost value = { big_endian 0 };

    fn read_at(bytes: &[u8], at: usize) -> u8 {
        bytes[at]
    }
}

impl Field for u32 {
    ghost width = { 4 };

    ghost value = { big_endian 0 };

    fn read_at(bytes: &[u8], at: usize) -> u32 {
        u32::from_be_bytes(chunk(bytes, at))
    }
}

impl Field for u64 {
    ghost width = { 8 };

    ghost value = { big_endian 0 };

    fn read_at(bytes: &[u8], at: usize) -> u64 {
        u64::from_be_bytes(chunk(bytes, at))
    }
}

impl Field for f64 {
    ghost width = { 8 };

    ghost value = { λ l. of_bits binary64 (big_endian 0 l) };

    fn read_at(bytes: &[u8], at: usize) -> f64 {
        float_of_bits(u64::read_at(bytes, at))
    }
}

// The N bytes from an index on.
fn chunk<const N: usize>(bytes: &[u8], at: usize) -> [u8; N]
    requires { at + N ≤ length bytes.now }
    ensures { result ≡ take N (drop at bytes.now) }
{
    *bytes[at..].first_chunk().unwrap()
}
