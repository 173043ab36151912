// The least separation of parallel wires of different nets: what is reported, and the functions on single values, each total: on summaries of nets, on the figures so far, on the allowance; and the checks of a call. The definitions are in specs/; the call is in separation_call.
#![tactic(auto)]

pub mod allowance;
pub mod answer;
pub mod checks;
pub mod found;
pub mod report;
pub mod search;
pub mod state;
pub mod summary;

pub use allowance::too_few;
pub use answer::answer_of;
pub use checks::check_separation;
pub use found::{Found, combined};
pub use report::ParallelSeparation;
pub use search::Search;
pub use state::Sweeping;
pub use summary::{NetSummary, merged_word};
