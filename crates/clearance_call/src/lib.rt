// The clearance call: the tree over the nodes, the walk of each segment over it, and the call by columns. Its answer is defined in the crate clearance.
#![tactic(auto)]

mod marks;
pub mod measure;
mod order;
mod prepare;
mod stored;
mod tables;
mod walk;
mod walk_all;

pub use measure::measure_edge_node_clearance_bounded;
