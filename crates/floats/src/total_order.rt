// IEEE 754's totalOrder on bit patterns of binary64, and its key: a number whose order is totalOrder. SCOPE 1.3, 15.8.
ghost use Rattle.std.specs.Prelude.{◌≡◌};
ghost use Rattle.floats.specs.TotalOrder as TotalOrder;
ghost use Rattle.floats.specs.Inner.TotalOrder as InnerTotalOrder;

use crate::patterns::{bits_of, float_of_bits};
use std::cmp::Ordering;

// The key of a bit pattern: its position in totalOrder.
pub fn total_order_key(bits: u64) -> u64
    ensures { result ≡ TotalOrder.key bits }
{
    if bits < 0x8000_0000_0000_0000 {
        bits + 0x8000_0000_0000_0000
    } else {
        0xffff_ffff_ffff_ffff - bits
    }
}

// The bit pattern that has a key.
fn pattern_of_key(key: u64) -> u64
    ensures { result ≡ TotalOrder.pattern_at key }
{
    if key < 0x8000_0000_0000_0000 {
        0xffff_ffff_ffff_ffff - key
    } else {
        key - 0x8000_0000_0000_0000
    }
}

// Two bit patterns compared, the Rust's `total_cmp`. The port's orders compare keys.
pub fn total_cmp(a: u64, b: u64) -> Ordering
    ensures { result ≡ InnerTotalOrder.total_cmp a b }
{
    total_order_key(a).cmp(&total_order_key(b))
}

// The key of a float.
pub fn key_of(x: f64) -> u64
    ensures { result ≡ TotalOrder.key_of x }
{
    total_order_key(bits_of(x))
}

// The float that has a key, a NaN where the key is a NaN's.
pub fn float_of_key(key: u64) -> f64
    ensures { result ≡ TotalOrder.float_at key }
{
    float_of_bits(pattern_of_key(key))
}
