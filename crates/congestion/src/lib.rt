// What the congestion calls answer: the definitions of the figures over all pairs, of the sweep and of the answers, with their laws; the reports and their ratio; and the functions of a call that need no scratch, the checks, the total length and the answer. The sweep is in `density_call`, the calls that rest on it in `congestion_call`.
#![tactic(auto)]

pub mod answer;
pub mod checks;
pub mod found;
pub mod report;
pub mod total;

pub use answer::{answer_of, without_density};
pub use checks::check_congestion;
pub use found::Found;
pub use report::{CongestionReport, ParallelCongestion};
pub use total::total_length;
