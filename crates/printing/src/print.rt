// The sheet of a drawing file: from the file's bytes to the bytes of the text. SCOPE 11.1.
ghost use Rattle.std.specs.Prelude.{◌≡◌, ◌++◌, length, drop};
ghost use Rattle.drawing.specs.Entries.{lent_segments, lent_nodes, lent_exemptions};
ghost use Rattle.file.specs.Inner.Columns.{settings_of};
ghost use Rattle.text.specs.Inner.TextPut.{Put};
ghost use Rattle.printing.specs.Sheet.{lines_of_columns, sheet};

use crate::lines::{file_refused, three_lines};
use clearance_call::measure_edge_node_clearance_bounded;
use density_call::measure_parallel_density_profile_bounded;
use drawing::{Exemptions, Nodes, Segments};
use file::{DrawingColumns, Header, read_drawing};
use separation_call::measure_parallel_separation_bounded;
use text::TextBuffer;

// The three lines of a drawing that was read.
fn put_lines(
    buffer: &mut TextBuffer<'_>,
    segments: &Segments<'_>,
    nodes: &Nodes<'_>,
    exemptions: &Exemptions<'_>,
    header: Header,
)
    ensures { Put 256 buffer.old (lines_of_columns (lent_segments segments.now) (lent_nodes nodes.now) (lent_exemptions exemptions.now) (settings_of header)) buffer.new }
{
    let mut scratch = [0u64; 7744];
    let clearance = measure_edge_node_clearance_bounded(
        segments,
        nodes,
        exemptions,
        header.threshold,
        header.clearance,
        &mut scratch,
    );
    let separation = measure_parallel_separation_bounded(segments, header.separation, &mut scratch);
    let congestion = measure_parallel_density_profile_bounded(
        segments,
        header.cutoff,
        header.congestion,
        &mut scratch,
    );
    three_lines(buffer, clearance, separation, congestion);
}

// No line is longer than its part of the text's 256 bytes: 69, 66 and 121.
pub fn sheet(bytes: &[u8], text: &mut [u8; 256]) -> usize
    ensures value { result ≡ length (sheet bytes.now) }
    ensures text_after { text.new ≡ sheet bytes.now ++ drop (length (sheet bytes.now)) text.old }
{
    let mut columns = DrawingColumns::new();
    let mut buffer = TextBuffer::new(text);
    match read_drawing(bytes, &mut columns) {
        Err(why) => file_refused(&mut buffer, why),
        Ok(header) => put_lines(
            &mut buffer,
            &columns.segments(header.segments),
            &columns.nodes(header.nodes),
            &columns.exemptions(header.exemptions),
            header,
        ),
    }
    buffer.position()
}
