// The measures for programs in C and Rust. A slice passes as a pointer and a length, an array as a pointer. An exported function returns numbers and no enum, so the answer is a number and words; the sheet of a file is text, and its length is returned.
#![tactic(auto)]

pub mod clearance_export;
pub mod congestion_export;
pub mod join_export;
pub mod records_export;
pub mod separation_export;
pub mod sheet_export;
pub mod tight_pair_export;
pub mod version_export;
mod words;

pub use clearance_export::readability_clearance;
pub use congestion_export::{
    readability_congestion, readability_congestion_profile, readability_density_profile,
    readability_ratio,
};
pub use join_export::readability_join;
pub use records_export::{
    readability_clearance_by_records, readability_congestion_by_records,
    readability_congestion_profile_by_records, readability_density_profile_by_records,
    readability_separation_by_records,
};
pub use separation_export::readability_separation;
pub use sheet_export::readability_sheet;
pub use tight_pair_export::readability_tight_pair;
pub use version_export::readability_version_0_3;
