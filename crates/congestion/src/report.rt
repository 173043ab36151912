// What the congestion calls return.
ghost use Rattle.std.specs.Prelude.{◌≡◌};
ghost use Rattle.congestion.specs.Ratio as Ratio;

// The lengths of all wires and of those close to other nets, and the peak (SCOPE 3.11, 3.12, 3.13, 3.14).
#[derive(Clone, Copy)]
pub struct ParallelCongestion {
    pub total_length: f64,
    pub congested_length: f64,
    // Summed overlap of the close pairs of different nets.
    pub pair_overlap_length: f64,
    // The most segments of other nets that are close to one segment on one stretch.
    pub peak_close_neighbors: usize,
}

impl ParallelCongestion {
    // SCOPE 3.17: the congested part of the total length, from 0 to 1; 0 unless the total is above 0.
    #[tactic(auto, unfolding(crate::specs::Ratio::ratio))]
    pub fn ratio(self) -> f64
        ensures { result ≡ Ratio.ratio self.total_length self.congested_length }
    {
        let total = self.total_length;
        let congested = self.congested_length;
        if 0.0 < total {
            (congested / total).clamp(0.0, 1.0)
        } else {
            0.0
        }
    }
}

// The figures with the least nonzero gap of a close pair of different nets, and the visits that the sweep took.
#[derive(Clone, Copy)]
pub struct CongestionReport {
    pub congestion: ParallelCongestion,
    pub minimum_positive: Option<f64>,
    pub visits: usize,
}
