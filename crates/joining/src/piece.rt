// Pieces as four words that are compared as numbers: net and orientation in one, and the keys of fixed, start and end, whose order is totalOrder.
ghost use Rattle.std.specs.Prelude.{◌≡◌, ◌+◌, ◌-◌, ◌*◌};
ghost use Rattle.drawing.specs.Entries.{as_taken};
ghost use Rattle.joining.specs.Joined.{canonical_zeros};
ghost use Rattle.joining.specs.Inner.Pieces.{piece_of, touches_piece, next_piece};

use drawing::{Segment, ends_in_order};
use floats::{canonical_zero, key_of};

#[derive(Clone, Copy)]
pub struct Piece {
    pub net_and_orientation: u64,
    pub fixed: u64,
    pub start: u64,
    pub end: u64,
}

// Twice the net, and one more where the piece is vertical: horizontal ones come first.
fn net_and_orientation_of(net: u32, orientation: u8) -> u64
    ensures { result ≡ 2 * net + (1 - orientation) }
{
    2 * u64::from(net) + u64::from(orientation == 0)
}

// The piece of a segment as lent: its ends in rising order, zeros made +0.
#[tactic(auto, unfolding(crate::specs::Inner::Pieces::piece_of, crate::specs::Joined::canonical_zeros))]
pub fn piece_of(segment: Segment) -> Piece
    ensures { result ≡ piece_of (canonical_zeros (as_taken segment)) }
{
    let ends = ends_in_order(segment.start, segment.end);
    Piece {
        net_and_orientation: net_and_orientation_of(segment.net, segment.orientation),
        fixed: key_of(canonical_zero(segment.fixed)),
        start: key_of(canonical_zero(ends.start)),
        end: key_of(canonical_zero(ends.end)),
    }
}

// x, which does not come before c in order, lies on the line of c and begins no later than c ends.
#[tactic(auto, unfolding(crate::specs::Inner::Pieces::touches_piece))]
pub fn touches(c: Piece, x: Piece) -> bool
    ensures { result ≡ touches_piece c x }
{
    c.net_and_orientation == x.net_and_orientation && c.fixed == x.fixed && x.start <= c.end
}

// The piece that extends once x has come: c with x where they touch, else x.
#[tactic(auto, unfolding(crate::specs::Inner::Pieces::next_piece, crate::specs::Inner::Pieces::extended_piece))]
pub fn next(c: Piece, x: Piece) -> Piece
    ensures { result ≡ next_piece c x }
{
    if !touches(c, x) {
        return x;
    }
    Piece {
        end: c.end.max(x.end),
        ..c
    }
}
