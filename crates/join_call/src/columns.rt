// The joiner by columns.
ghost use Rattle.std.specs.Prelude.{◌≡◌, length, Ok};
ghost use Rattle.drawing.specs.Refusals.{first_of};
ghost use Rattle.drawing.specs.Entries.{lent_segments, segment_columns};
ghost use Rattle.drawing.specs.Conditions.{short_output};
ghost use Rattle.drawing.specs.Checks.{segment_list_conditions};
ghost use Rattle.drawing.specs.Held.{SegmentsHeld};
ghost use Rattle.joining.specs.Answer.{join_answer, output_after};
ghost use Rattle.joining.specs.Inner.Pieces.{joined_pieces};
ghost use Rattle.join_call.specs.Inner.Rest.{rest_answer, rest_output};
ghost use Rattle.join_call.specs.Inner.Output.{held, SameColumns};
ghost use Rattle.join_call.specs.Inner.Table.{Lists};

use crate::output::Output;
use crate::table::Table;
use crate::write::write_pieces;
use drawing::{Refusal, Segments};
use joining::{Joined, short_output};
use list_checks::check_segment_list;

// Whether some output column, of these lengths, has fewer entries than there are pieces. There are no more pieces than segments, so they are counted only where a column is shorter than the list.
fn lacks_room(table: &Table<'_>, lengths: &[usize]) -> bool
    ensures { result ≡ short_output (length (joined_pieces table.now)) lengths.now }
{
    short_output(table.len(), lengths) && short_output(table.count_pieces(), lengths)
}

// Joins segments that passed the checks, by a table that takes five words for each. Nothing is written before it is known that there is room.
fn join_by_table(
    words: &mut [u64],
    segments: &Segments<'_>,
    output: &mut Output<'_>,
) -> Result<Joined, Refusal>
    requires { Lists (lent_segments segments.now) (length words.old) }
    ensures value { result ≡ rest_answer (lent_segments segments.now) (held output.old) }
    ensures same_columns { SameColumns output.old output.new }
    ensures columns_after { held output.new ≡ rest_output (lent_segments segments.now) (held output.old) }
{
    let table = Table::new(words, segments);
    if lacks_room(&table, &output.lengths()) {
        return Err(Refusal::ShortOutput);
    }
    let pieces = write_pieces(&table, output);
    Ok(Joined {
        pieces,
        gone: segments.net.len() - pieces,
    })
}

// SCOPE 16: the fewest pieces that cover what the segments cover, in order, are written to the columns to_net to to_end. Nothing is written where the call is refused.
// Five parameters and no struct of them: a struct that is passed by `&mut` could come back with other columns in it, so the contract would have to say of each that it is the one that was lent, and of a struct by value the check does not prove what its columns hold at the end.
pub fn join(
    segments: &Segments<'_>,
    to_net: &mut [u32],
    to_orientation: &mut [u8],
    to_fixed: &mut [f64],
    to_start: &mut [f64],
    to_end: &mut [f64],
) -> Result<Joined, Refusal>
    ensures { let lent = lent_segments segments.now in
        let out = segment_columns to_net.old to_orientation.old to_fixed.old to_start.old to_end.old in
        (result ≡ join_answer lent out)
        × (segment_columns to_net.new to_orientation.new to_fixed.new to_start.new to_end.new ≡ output_after lent out)
        × (first_of (segment_list_conditions lent) ≡ Ok tt → SegmentsHeld lent) }
{
    check_segment_list(segments)?;
    segments.held();
    let mut output = Output {
        net: to_net,
        orientation: to_orientation,
        fixed: to_fixed,
        start: to_start,
        end: to_end,
    };
    // A short list needs no long table, whose clearing would take longer than the rest.
    if segments.net.len() <= 128 {
        let mut words = [0u64; 640];
        return join_by_table(&mut words, segments, &mut output);
    }
    let mut words = [0u64; 20480];
    join_by_table(&mut words, segments, &mut output)
}
