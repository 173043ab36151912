// The joiner.
ghost use Rattle.std.specs.Prelude.{◌≡◌};
ghost use Rattle.drawing.specs.Entries.{segment_columns};
ghost use Rattle.joining.specs.Answer.{join_answer, output_after, result_of};
ghost use Rattle.exports.specs.Words.{join_words};

use crate::words::write;
use drawing::Segments;
use join_call::join;

pub fn readability_join(
    net: &[u32],
    orientation: &[u8],
    fixed: &[f64],
    start: &[f64],
    end: &[f64],
    to_net: &mut [u32],
    to_orientation: &mut [u8],
    to_fixed: &mut [f64],
    to_start: &mut [f64],
    to_end: &mut [f64],
    out: &mut [u64; 2],
) -> u32
    ensures { let lent = segment_columns net.now orientation.now fixed.now start.now end.now in
        let output = segment_columns to_net.old to_orientation.old to_fixed.old to_start.old to_end.old in
        let told = result_of (join_answer lent output) in
        (result ≡ told.0)
        × (out.new ≡ join_words told)
        × (segment_columns to_net.new to_orientation.new to_fixed.new to_start.new to_end.new ≡ output_after lent output) }
{
    let segments = Segments {
        net,
        orientation,
        fixed,
        start,
        end,
    };
    let answer = join(
        &segments,
        to_net,
        to_orientation,
        to_fixed,
        to_start,
        to_end,
    );
    write(answer, out)
}
