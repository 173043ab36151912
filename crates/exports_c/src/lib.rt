// The exported functions: the library's archive for C and Rust. Each calls the function of its name in the crate `exports`, whose clauses it states again; no other code is here.
#![tactic(auto)]

pub mod clearance_c;
pub mod congestion_c;
pub mod join_c;
pub mod records_c;
pub mod separation_c;
pub mod sheet_c;
pub mod tight_pair_c;
pub mod version_c;
