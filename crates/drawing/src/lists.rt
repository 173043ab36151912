// The lists of a drawing as columns, as they are lent: a slice for each field of the entries. SCOPE 2.1 to 2.3, 2.5.
// The columns of one list may differ in length. A call then refuses them (SCOPE 7.2).
ghost use Rattle.std.specs.Prelude.{◌≡◌, ℕ, ◌^◌, ◌<◌, get_or, length};
ghost use Rattle.std.specs.Float.{nan};
ghost use Rattle.drawing.specs.Entries.{lent_segments, lent_nodes};
ghost use Rattle.drawing.specs.Inner.Entries.{lent_at, node_at};
ghost use Rattle.drawing.specs.Inner.Lengths.{SegmentsAgree, NodesAgree};
ghost use Rattle.drawing.specs.Held.{Binary64, SegmentsHeld, NodesHeld};

// The type of a column says what its numbers can be, but a proof is told so only of a function's own slices. These two functions, and `held` of the lists, hand it on to where a list came as a struct. They do nothing.
fn nets_held(column: &[u32])
    ensures { (i : ℕ) → get_or column.now i 0 < 2 ^ 32 }
{}

fn floats_held(column: &[f64])
    ensures { (i : ℕ) → Binary64 (get_or column.now i nan) }
{}

// A segment as an entry of these columns: the orientation byte is 1 where it is horizontal and 0 where it is vertical. It stays a byte, as the column has it (SCOPE 2.5): another one is refused, and no type excludes it.
#[derive(Clone, Copy)]
pub struct Segment {
    pub net: u32,
    pub orientation: u8,
    pub fixed: f64,
    pub start: f64,
    pub end: f64,
}

#[derive(Clone, Copy)]
pub struct Node {
    pub id: u32,
    pub x: f64,
    pub y: f64,
    pub width: f64,
    pub height: f64,
}

#[derive(Clone, Copy)]
pub struct Segments<'a> {
    pub net: &'a [u32],
    pub orientation: &'a [u8],
    pub fixed: &'a [f64],
    pub start: &'a [f64],
    pub end: &'a [f64],
}

impl Segments<'_> {
    // The entry at index i, its ends as they are lent.
    pub fn at(&self, i: usize) -> Segment
        requires agree { SegmentsAgree (lent_segments self.now) }
        requires in_bounds { i < length self.now.net.now }
        ensures { result ≡ lent_at (lent_segments self.now) i }
    {
        Segment {
            net: self.net[i],
            orientation: self.orientation[i],
            fixed: self.fixed[i],
            start: self.start[i],
            end: self.end[i],
        }
    }

    // The floats of the segments, as they are taken, are values of binary64, and nets have 32 bits.
    pub fn held(&self)
        ensures floats { SegmentsAgree (lent_segments self.now) → SegmentsHeld (lent_segments self.now) }
        ensures nets { (i : ℕ) → get_or (lent_segments self.now).net i 0 < 2 ^ 32 }
    {
        nets_held(self.net);
        floats_held(self.fixed);
        floats_held(self.start);
        floats_held(self.end);
    }
}

#[derive(Clone, Copy)]
pub struct Nodes<'a> {
    pub id: &'a [u32],
    pub x: &'a [f64],
    pub y: &'a [f64],
    pub width: &'a [f64],
    pub height: &'a [f64],
}

impl Nodes<'_> {
    // The entry at index i.
    pub fn at(&self, i: usize) -> Node
        requires agree { NodesAgree (lent_nodes self.now) }
        requires in_bounds { i < length self.now.id.now }
        ensures { result ≡ node_at (lent_nodes self.now) i }
    {
        Node {
            id: self.id[i],
            x: self.x[i],
            y: self.y[i],
            width: self.width[i],
            height: self.height[i],
        }
    }

    // The floats of the nodes are values of binary64.
    pub fn held(&self)
        ensures { NodesAgree (lent_nodes self.now) → NodesHeld (lent_nodes self.now) }
    {
        floats_held(self.x);
        floats_held(self.y);
        floats_held(self.width);
        floats_held(self.height);
    }
}

#[derive(Clone, Copy)]
pub struct Exemptions<'a> {
    pub net: &'a [u32],
    pub node: &'a [u32],
}
