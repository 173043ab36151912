// The segments of one orientation as sorted rows, and their sorted events: what the sweeps of separation and of congestion take (SCOPE 5.9, 5.12); and how many segments are swept.
#![tactic(auto)]

pub mod counts;
pub mod events;
pub mod rows;

pub use counts::segments_to_sweep;
pub use events::order_events;
pub use rows::{order_rows, spread_rows};
