// The joined pieces go into the lent columns.
ghost use Rattle.std.specs.Prelude.{cond, ◌≡◌, ◌+◌, length};
ghost use Rattle.joining.specs.Inner.Pieces.{touches_piece, begun, joined_pieces};
ghost use Rattle.join_call.specs.Inner.Output.{held, SameColumns, Room, put_piece, written_pieces};

use crate::output::Output;
use crate::table::Table;
use joining::{Piece, next, touches};

// Writes c where x begins a piece of its own. Returns how many pieces are written then.
fn close_piece(output: &mut Output<'_>, at: usize, c: Piece, x: Piece) -> usize
    requires { Room (at + 1) (held output.old) }
    ensures count { result ≡ at + begun c x }
    ensures same_columns { SameColumns output.old output.new }
    ensures columns_after { held output.new ≡ cond (touches_piece c x) (held output.old) (put_piece (held output.old) at c) }
{
    if touches(c, x) {
        return at;
    }
    output.write(at, c);
    at + 1
}

// Writes what the pieces of the table join to. Returns how many pieces these are.
pub(crate) fn write_pieces(table: &Table<'_>, output: &mut Output<'_>) -> usize
    requires { Room (length (joined_pieces table.now)) (held output.old) }
    ensures count { result ≡ length (joined_pieces table.now) }
    ensures same_columns { SameColumns output.old output.new }
    ensures columns_after { held output.new ≡ written_pieces (joined_pieces table.now) (held output.old) }
{
    if table.len() == 0 {
        return 0;
    }
    let mut c = table.piece(0);
    let mut at = 0;
    for k in 1..table.len() {
        let x = table.piece(k);
        at = close_piece(output, at, c, x);
        c = next(c, x);
    }
    output.write(at, c);
    at + 1
}
