// The lent output columns, and how a piece is written to them.
ghost use Rattle.std.specs.Prelude.{◌≡◌, ◌+◌};
ghost use Rattle.joining.specs.Conditions.{output_lengths};
ghost use Rattle.join_call.specs.Inner.Output.{held, SameColumns, Room, put_piece};

use floats::float_of_key;
use joining::Piece;

#[derive(Drop)]
pub(crate) struct Output<'a> {
    pub(crate) net: &'a mut [u32],
    pub(crate) orientation: &'a mut [u8],
    pub(crate) fixed: &'a mut [f64],
    pub(crate) start: &'a mut [f64],
    pub(crate) end: &'a mut [f64],
}

impl Output<'_> {
    // How many entries each column holds. The columns may differ in length.
    pub(crate) fn lengths(&self) -> [usize; 5]
        ensures { result ≡ output_lengths (held self.now) }
    {
        [
            self.net.len(),
            self.orientation.len(),
            self.fixed.len(),
            self.start.len(),
            self.end.len(),
        ]
    }

    #[tactic(auto, unfolding(crate::specs::Inner::Output::put_piece, crate::specs::Inner::Output::net_of, crate::specs::Inner::Output::orientation_of))]
    pub(crate) fn write(&mut self, at: usize, p: Piece)
        requires { Room (at + 1) (held self.old) }
        ensures same_columns { SameColumns self.old self.new }
        ensures columns_after { held self.new ≡ put_piece (held self.old) at p }
    {
        // The half of the word is a net, so the remainder changes nothing: no cast may lose bits.
        self.net[at] = (p.net_and_orientation / 2 % 4294967296) as u32;
        self.orientation[at] = u8::from(p.net_and_orientation % 2 == 0);
        self.fixed[at] = float_of_key(p.fixed);
        self.start[at] = float_of_key(p.start);
        self.end[at] = float_of_key(p.end);
    }
}
