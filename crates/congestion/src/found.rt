// What a sweep found.

// The figures of one orientation or of both, and the remaining visits.
#[derive(Clone, Copy)]
pub struct Found {
    pub congested_length: f64,
    pub pair_overlap_length: f64,
    pub peak_close_neighbors: usize,
    pub minimum_positive: Option<f64>,
    pub remaining: usize,
}
