// Joining: the pieces of one net on one line become one where they touch. Definitions, laws and functions on single values; the call is in `join_call`.
#![tactic(auto)]

pub mod answer;
pub mod piece;
pub mod room;

pub use answer::Joined;
pub use piece::{Piece, next, piece_of, touches};
pub use room::short_output;
