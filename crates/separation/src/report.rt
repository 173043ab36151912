// What separation answers.

// The Rust's record, with the visits that the walk used.
#[derive(Clone, Copy)]
pub struct ParallelSeparation {
    pub minimum: Option<f64>,
    pub minimum_positive: Option<f64>,
    pub visits: usize,
}
