// The sweep over the wires of each orientation, and the density profile: the call that measures. What it answers is defined in `congestion`.
#![tactic(auto)]

mod along;
pub mod measure;
mod meet;
mod ranges;
mod run;
mod sweep;

pub use measure::measure_parallel_density_profile_bounded;
