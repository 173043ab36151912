// The separation measure.
ghost use Rattle.std.specs.Prelude.{◌≡◌, length};
ghost use Rattle.drawing.specs.Refusals.{first_of, scratch_after};
ghost use Rattle.drawing.specs.Entries.{segment_columns};
ghost use Rattle.separation.specs.Conditions.{separation_conditions};
ghost use Rattle.separation.specs.Answer.{separation_answer, result_of};
ghost use Rattle.exports.specs.Words.{separation_words};

use crate::words::write;
use drawing::Segments;
use separation_call::measure_parallel_separation_bounded;

pub fn readability_separation(
    net: &[u32],
    orientation: &[u8],
    fixed: &[f64],
    start: &[f64],
    end: &[f64],
    allowance: usize,
    scratch: &mut [u64],
    out: &mut [u64; 5],
) -> u32
    ensures { let lent = segment_columns net.now orientation.now fixed.now start.now end.now in
        let words = length scratch.old in
        let told = result_of (separation_answer lent allowance words) in
        (result ≡ told.0)
        × (out.new ≡ separation_words told.1)
        × (scratch.new ≡ scratch_after (first_of (separation_conditions lent words)) scratch.old) }
{
    let segments = Segments {
        net,
        orientation,
        fixed,
        start,
        end,
    };
    let answer = measure_parallel_separation_bounded(&segments, allowance, scratch);
    write(answer, out)
}
