// Which of sorted keys of coordinates are within a cutoff of one of them. SCOPE 3.10, 5.12.
#![tactic(auto)]

pub mod range;

pub use range::{Range, cutoff_range};
