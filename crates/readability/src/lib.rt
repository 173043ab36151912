// The measures of a drawing under the Rust's names (SCOPE 6.1), each from the crate that has it. By columns a call has the Rust's name alone; the thin entries, whose names end in `_by_records`, take the Rust's list of records. `join` and the tight pair are added to the Rust's. What is promised of them is in specs/Promise.
#![tactic(auto)]

pub use clearance::EdgeNodeClearance;
pub use clearance_call::measure_edge_node_clearance_bounded;
pub use congestion::{CongestionReport, ParallelCongestion};
pub use congestion_call::{
    measure_parallel_congestion, measure_parallel_congestion_profile_bounded,
};
pub use density_call::measure_parallel_density_profile_bounded;
pub use drawing::{Exemptions, Nodes, Refusal, Segments};
pub use join_call::join;
pub use joining::Joined;
pub use records::{
    EdgeNodeSegment, ParallelSegment, measure_edge_node_clearance_bounded_by_records,
    measure_parallel_congestion_by_records, measure_parallel_congestion_profile_bounded_by_records,
    measure_parallel_density_profile_bounded_by_records,
    measure_parallel_separation_bounded_by_records,
};
pub use separation::ParallelSeparation;
pub use separation_call::measure_parallel_separation_bounded;
pub use tight_pair::{TightPair, tight_pair};
