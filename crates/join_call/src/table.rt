// The pieces of some segments, in order, in a slice of words.
ghost use Rattle.std.specs.Prelude.{◌≡◌, ◌+◌, ◌≤◌, ◌<◌, length, List, map, slice_index_or};
ghost use Rattle.std.proofs.Math.Seq.{paste};
ghost use Rattle.laws.specs.Sort.{sort_by};
ghost use Rattle.drawing.specs.Entries.{lent_segments};
ghost use Rattle.drawing.specs.Entries as Entries;
ghost use Rattle.joining.specs.declared.piece.Piece.{Piece};
ghost use Rattle.joining.specs.Joined.{canonical_zeros, is_in_order};
ghost use Rattle.joining.specs.Inner.Pieces.{piece_of, joined_pieces};
ghost use Rattle.join_call.specs.Inner.Table.{piece_words, placed, entries_from, Lists, Gathered, Tabled, TableInOrder};

use drawing::Segments;
use joining::{Piece, next, piece_of, touches};
use sorting::{fill_places, sort_indices};
use std::marker::Model;

// An index for each piece, in order of the pieces, and behind the indices the pieces, four words each. A contract sees the list of the pieces in order.
#[derive(Drop)]
pub(crate) struct Table<'a> {
    words: &'a [u64],
    count: usize,
}

impl<'a> Model for Table<'a> {
    ghost Value = { List Piece };

    ghost view = { λ t. entries_from t.count t.words.now 0 t.count };

    ghost invariant = { λ t. Tabled t.count t.words.now };
}

fn put_row(a: &mut [u64], at: usize, p: Piece)
    requires { at + 4 ≤ length a.old }
    ensures { a.new ≡ paste a.old at (piece_words p) 4 }
{
    // Four stores: an array of the words, to be copied by `copy_from_slice`, is stored twice, which takes a tenth more of the joiner's own instructions.
    a[at] = p.net_and_orientation;
    a[at + 1] = p.fixed;
    a[at + 2] = p.start;
    a[at + 3] = p.end;
}

// A row for each segment.
fn gather(a: &mut [u64], segments: &Segments<'_>)
    requires { Lists (lent_segments segments.now) (length a.old) }
    ensures { Gathered (lent_segments segments.now) (length segments.now.net.now) a.old a.new }
{
    // A copy of the struct of slices: behind the reference the slices would be loaded again for each row.
    let segments = *segments;
    let n = segments.net.len();
    for i in 0..n {
        put_row(a, n + 4 * i, piece_of(segments.at(i)));
    }
}

// All pieces in order.
fn order_pieces(a: &mut [u64], segments: &Segments<'_>)
    requires { Lists (lent_segments segments.now) (length a.old) }
    ensures { TableInOrder (lent_segments segments.now) a.new }
{
    gather(a, segments);
    let n = segments.net.len();
    fill_places(&mut a[0..n]);
    sort_indices(a, n, n, 4);
}

// Of n pieces, the k-th in order.
fn piece_at(a: &[u64], n: usize, k: usize) -> Piece
    requires { Tabled n a.now × (k < n) }
    ensures { result ≡ placed n a.now k }
{
    let at = n + 4 * a[k] as usize;
    Piece {
        net_and_orientation: a[at],
        fixed: a[at + 1],
        start: a[at + 2],
        end: a[at + 3],
    }
}

impl<'a> Table<'a> {
    // The table of the segments, in these words.
    pub(crate) fn new(words: &'a mut [u64], segments: &Segments<'_>) -> Self
        requires { Lists (lent_segments segments.now) (length words.old) }
        ensures { result ≡ map piece_of (sort_by is_in_order (map canonical_zeros (Entries.segments (lent_segments segments.now)))) }
    {
        order_pieces(words, segments);
        Table {
            words,
            count: segments.net.len(),
        }
    }
}

impl Table<'_> {
    pub(crate) fn len(&self) -> usize
        ensures { result ≡ length self.now }
    {
        self.count
    }

    // The k-th piece in order.
    pub(crate) fn piece(&self, k: usize) -> Piece
        requires { k < length self.now }
        ensures { slice_index_or self.now k result ≡ result }
    {
        piece_at(self.words, self.count, k)
    }

    // How many pieces they join to.
    pub(crate) fn count_pieces(&self) -> usize
        ensures { result ≡ length (joined_pieces self.now) }
    {
        if self.len() == 0 {
            return 0;
        }
        let mut c = self.piece(0);
        let mut count = 1;
        for k in 1..self.len() {
            let x = self.piece(k);
            if !touches(c, x) {
                count += 1;
            }
            c = next(c, x);
        }
        count
    }
}
