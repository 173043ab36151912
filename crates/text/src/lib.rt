// Texts put into a lent buffer: bytes, words, and numbers in decimal and hexadecimal.
#![tactic(auto)]

pub mod put;

pub use put::{TextBuffer, glyph};
