// What reading a drawing file returns.

// The counts of the three lists, and the settings.
#[derive(Clone, Copy)]
pub struct Header {
    pub segments: usize,
    pub nodes: usize,
    pub exemptions: usize,
    pub threshold: f64,
    pub cutoff: f64,
    pub clearance: usize,
    pub separation: usize,
    pub congestion: usize,
}
