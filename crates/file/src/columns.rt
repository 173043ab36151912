// The columns of a drawing of the program's limits: 120 segments, 120 nodes and 240 exemptions. Arrays side by side, since the calls take columns and there is no heap.
ghost use Rattle.std.specs.Prelude.{◌≡◌, ◌≤◌, take, replicate};
ghost use Rattle.std.specs.Float.{binary64};
ghost use Rattle.std.specs.Float.Ieee.{of_bits};
ghost use Rattle.drawing.specs.Entries.{segment_columns, node_columns, exemption_columns, lent_segments, lent_nodes, lent_exemptions};

use drawing::{Exemptions, Nodes, Segments};

#[derive(Drop)]
pub struct DrawingColumns {
    pub net: [u32; 120],
    pub orientation: [u8; 120],
    pub fixed: [f64; 120],
    pub start: [f64; 120],
    pub end: [f64; 120],
    pub id: [u32; 120],
    pub x: [f64; 120],
    pub y: [f64; 120],
    pub width: [f64; 120],
    pub height: [f64; 120],
    pub exempt_net: [u32; 240],
    pub exempt_node: [u32; 240],
}

impl DrawingColumns {
    // Columns of zeros.
    pub fn new() -> DrawingColumns
        ensures segments { (result.net ≡ replicate 120 0) × (result.orientation ≡ replicate 120 0) × (result.fixed ≡ replicate 120 (of_bits binary64 0)) × (result.start ≡ replicate 120 (of_bits binary64 0)) × (result.end ≡ replicate 120 (of_bits binary64 0)) }
        ensures nodes { (result.id ≡ replicate 120 0) × (result.x ≡ replicate 120 (of_bits binary64 0)) × (result.y ≡ replicate 120 (of_bits binary64 0)) × (result.width ≡ replicate 120 (of_bits binary64 0)) × (result.height ≡ replicate 120 (of_bits binary64 0)) }
        ensures exemptions { (result.exempt_net ≡ replicate 240 0) × (result.exempt_node ≡ replicate 240 0) }
    {
        DrawingColumns {
            net: [0; 120],
            orientation: [0; 120],
            fixed: [0.0; 120],
            start: [0.0; 120],
            end: [0.0; 120],
            id: [0; 120],
            x: [0.0; 120],
            y: [0.0; 120],
            width: [0.0; 120],
            height: [0.0; 120],
            exempt_net: [0; 240],
            exempt_node: [0; 240],
        }
    }

    // The first entries of each list, lent: all of them where there are no more.
    pub fn segments(&self, count: usize) -> Segments<'_>
        ensures { lent_segments result ≡ segment_columns (take «count» self.now.net) (take «count» self.now.orientation) (take «count» self.now.fixed) (take «count» self.now.start) (take «count» self.now.end) }
    {
        let count = count.min(120);
        Segments {
            net: &self.net[..count],
            orientation: &self.orientation[..count],
            fixed: &self.fixed[..count],
            start: &self.start[..count],
            end: &self.end[..count],
        }
    }

    pub fn nodes(&self, count: usize) -> Nodes<'_>
        ensures { lent_nodes result ≡ node_columns (take «count» self.now.id) (take «count» self.now.x) (take «count» self.now.y) (take «count» self.now.width) (take «count» self.now.height) }
    {
        let count = count.min(120);
        Nodes {
            id: &self.id[..count],
            x: &self.x[..count],
            y: &self.y[..count],
            width: &self.width[..count],
            height: &self.height[..count],
        }
    }

    pub fn exemptions(&self, count: usize) -> Exemptions<'_>
        ensures { lent_exemptions result ≡ exemption_columns (take «count» self.now.exempt_net) (take «count» self.now.exempt_node) }
    {
        let count = count.min(240);
        Exemptions {
            net: &self.exempt_net[..count],
            node: &self.exempt_node[..count],
        }
    }
}
