// The thin entries (SCOPE 2.6): each measure takes the lent list of segment records, as the Rust does, and answers what its call by columns answers of the same segments. The records are copied into columns, and the call by columns does all else, its refusals included.
#![tactic(auto)]

pub mod edge_node;
pub mod parallel;

pub use edge_node::{EdgeNodeSegment, measure_edge_node_clearance_bounded_by_records};
pub use parallel::{
    ParallelSegment, measure_parallel_congestion_by_records,
    measure_parallel_congestion_profile_bounded_by_records,
    measure_parallel_density_profile_bounded_by_records,
    measure_parallel_separation_bounded_by_records,
};
