// From a list of records to columns (SCOPE 2.6, 15.9): what a record is, and the columns that the records of a list are copied into. The measures take columns.
#![tactic(auto)]

pub mod columns;
pub mod record;

pub use columns::Columns;
pub use record::SegmentRecord;
