// The sheet of a drawing file: the text of the three answers. SCOPE 11.
#![tactic(auto)]

mod lines;
pub mod print;

pub use print::sheet;
