// What every measure shares: the lists of a drawing as columns, the gap and the refusals, the ends of a segment in rising order, the tests of one entry, the clearing of the scratch, and the visits that were used.
#![tactic(auto)]

pub mod ends;
pub mod entry;
pub mod gap;
pub mod lists;
pub mod refusal;
pub mod scratch;
pub mod visits;

pub use ends::{Ends, ends_in_order};
pub use entry::{node_unfit, segment_unfit, threshold_unfit};
pub use gap::{gap_of_float, least_with, minimum_option, no_gap};
pub use lists::{Exemptions, Node, Nodes, Segment, Segments};
pub use refusal::Refusal;
pub use scratch::clear;
pub use visits::visits_used;
