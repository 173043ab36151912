// The two congestion calls that rest on the density profile: the profile without density, and the call without an allowance.
#![tactic(auto)]

pub mod measure;

pub use measure::{measure_parallel_congestion, measure_parallel_congestion_profile_bounded};
