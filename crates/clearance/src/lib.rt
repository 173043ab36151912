// The clearance measure as it is defined, and the small functions that need no scratch: the checks of a call, what is pruned, which half is walked first, what a visit charges and counts, what is answered.
// specs/ has what a reader must believe: the figures over all pairs, the tree, the walk over it with no limit, the conditions of the refusals, and the answer; specs/Inner has what only inner contracts and proofs cite. proofs/ has the laws of these definitions and the proofs of the functions. The functions that build the tree and walk it are in the crate clearance_call.
#![tactic(auto)]

pub mod answer;
pub mod checks;
pub mod halves;
pub mod pruning;
pub mod report;
pub mod visit;

pub use answer::answer_of;
pub use checks::check_clearance;
pub use halves::{Halves, Subtree, nearer_first};
pub use pruning::{clearance_subtree_can_contribute, edges_below};
pub use report::EdgeNodeClearance;
pub use visit::{Walking, at_start, visit_pair};
