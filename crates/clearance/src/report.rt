// What the clearance measure answers.

// The Rust's report, with the visits used (SCOPE 4.1).
#[derive(Clone, Copy)]
pub struct EdgeNodeClearance {
    pub minimum_clearance: Option<f64>,
    pub violations: usize,
    pub visits: usize,
}
