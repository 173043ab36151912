// Functions on f64: bit patterns, IEEE 754's totalOrder and its key, zeros, finiteness, lesser and greater, absolute value, and the grid of 1/64.
// The definitions that the contracts cite are in specs/, the laws of these definitions in proofs/.
#![tactic(auto)]

pub mod grid;
pub mod patterns;
pub mod total_order;
pub mod values;

pub use grid::on_grid;
pub use patterns::{bits_of, float_of_bits};
pub use total_order::{float_of_key, key_of, total_cmp, total_order_key};
pub use values::{absolute, canonical_zero, greater, is_finite, lesser};
