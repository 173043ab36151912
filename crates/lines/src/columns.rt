// The columns of a list of records. A call refuses more than 4,096 entries whatever they are (SCOPE 7.3), so the first 4,097 records are enough, and no heap is needed.
ghost use Rattle.std.specs.Prelude.{◌≡◌, ◌≤◌, [], map, take};
ghost use Rattle.drawing.specs.Entries.{SegmentColumns, segment_columns, lent_segments, columns_of};

use crate::record::SegmentRecord;
use drawing::Segments;
use std::marker::Model;

const PLACES: usize = 4097;

#[derive(Drop)]
pub struct Columns {
    count: usize,
    net: [u32; PLACES],
    orientation: [u8; PLACES],
    fixed: [f64; PLACES],
    start: [f64; PLACES],
    end: [f64; PLACES],
}

// The first `count` places of each column.
impl Model for Columns {
    ghost Value = { SegmentColumns };

    ghost view = { λ c. segment_columns (take c.count c.net) (take c.count c.orientation) (take c.count c.fixed) (take c.count c.start) (take c.count c.end) };

    ghost invariant = { λ c. c.count ≤ 4097 };
}

impl Columns {
    #[tactic(auto, unfolding(drawing::specs::Entries::columns_of))]
    pub fn empty() -> Columns
        ensures { result ≡ columns_of [] }
    {
        Columns {
            count: 0,
            net: [0; PLACES],
            orientation: [0; PLACES],
            fixed: [0.0; PLACES],
            start: [0.0; PLACES],
            end: [0.0; PLACES],
        }
    }

    // The columns of the list, or of its first 4,097 records, in place of what was held. A function that returned them filled would take the stack for them twice.
    pub fn copy_from<R: SegmentRecord>(&mut self, records: &[R])
        ensures { self.new ≡ columns_of (take 4097 (map R.segment records.now)) }
    {
        let count = records.len().min(PLACES);
        for (i, record) in records[..count].iter().enumerate() {
            let segment = record.segment();
            self.net[i] = segment.net;
            self.orientation[i] = segment.orientation;
            self.fixed[i] = segment.fixed;
            self.start[i] = segment.start;
            self.end[i] = segment.end;
        }
        self.count = count;
    }

    // As a call by columns takes them.
    pub fn segments(&self) -> Segments<'_>
        ensures { lent_segments result ≡ self.now }
    {
        Segments {
            net: &self.net[..self.count],
            orientation: &self.orientation[..self.count],
            fixed: &self.fixed[..self.count],
            start: &self.start[..self.count],
            end: &self.end[..self.count],
        }
    }
}
