// The separation call: the sweep over the segments of one orientation, with the tree of the active nets in the scratch, and the measure by columns.
#![tactic(auto)]

mod along;
mod line_numbers;
pub mod measure;
mod nets;
mod run;
mod slots;
mod sweep;
mod tree;

pub use measure::measure_parallel_separation_bounded;
