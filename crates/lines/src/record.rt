// A record of a list: it stands for one segment (SCOPE 2.6).
ghost use Rattle.std.specs.Prelude.{◌≡◌};
ghost use Rattle.drawing.specs.Entries.{Segment};

use drawing::Segment;

// A trait of its own, and not `Into<Segment>`: contracts name a record's segment as a function, and of a conversion std has a relation alone, so that they would be longer.
pub trait SegmentRecord: Copy {
    ghost segment: { Self → Segment };

    // The record as an entry of the columns.
    fn segment(self) -> Segment
        ensures { result ≡ segment self };
}
