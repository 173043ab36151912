// The drawing file: reading its bytes into columns. SCOPE 10.
#![tactic(auto)]

mod bytes;
pub mod columns;
mod entries;
pub mod read;
pub mod reading;
mod scan;

pub use columns::DrawingColumns;
pub use read::read_drawing;
pub use reading::Header;
