// Axis-aligned boxes of nodes and segments.
#![tactic(auto)]

pub mod aabb;

pub use aabb::Aabb;
