// The joiner's call: pieces in a table, in order, counted, and then written.
#![tactic(auto)]

pub mod columns;
mod output;
mod table;
mod write;

pub use columns::join;
