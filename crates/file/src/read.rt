// A drawing file, read into lent columns.
ghost use Rattle.std.specs.Prelude.{◌≡◌, ◌≤◌, IfOk};
ghost use Rattle.file.specs.Reading.{read};
ghost use Rattle.file.specs.Columns.{reading_of, result_of, file_result, column_after};

use crate::columns::DrawingColumns;
use crate::entries::Entries;
use crate::reading::Header;
use crate::scan::scan;
use drawing::Refusal;

// The faults are found before anything is written, so that a refused file leaves every column as it was (SCOPE 8.1).
pub fn read_drawing(bytes: &[u8], columns: &mut DrawingColumns) -> Result<Header, Refusal>
    ensures value { (result ≡ reading_of (read bytes.now)) × (result_of result ≡ file_result (read bytes.now)) }
    ensures room { IfOk result (λ h. (h.segments ≤ 120) × (h.nodes ≤ 120) × (h.exemptions ≤ 240)) }
    ensures net_after { columns.new.net ≡ column_after (λ d. d.segments) (λ s. s.net) (read bytes.now) columns.old.net }
    ensures orientation_after { columns.new.orientation ≡ column_after (λ d. d.segments) (λ s. s.orientation) (read bytes.now) columns.old.orientation }
    ensures fixed_after { columns.new.fixed ≡ column_after (λ d. d.segments) (λ s. s.fixed) (read bytes.now) columns.old.fixed }
    ensures start_after { columns.new.start ≡ column_after (λ d. d.segments) (λ s. s.start) (read bytes.now) columns.old.start }
    ensures end_after { columns.new.end ≡ column_after (λ d. d.segments) (λ s. s.end) (read bytes.now) columns.old.end }
    ensures id_after { columns.new.id ≡ column_after (λ d. d.nodes) (λ n. n.id) (read bytes.now) columns.old.id }
    ensures x_after { columns.new.x ≡ column_after (λ d. d.nodes) (λ n. n.x) (read bytes.now) columns.old.x }
    ensures y_after { columns.new.y ≡ column_after (λ d. d.nodes) (λ n. n.y) (read bytes.now) columns.old.y }
    ensures width_after { columns.new.width ≡ column_after (λ d. d.nodes) (λ n. n.width) (read bytes.now) columns.old.width }
    ensures height_after { columns.new.height ≡ column_after (λ d. d.nodes) (λ n. n.height) (read bytes.now) columns.old.height }
    ensures exempt_net_after { columns.new.exempt_net ≡ column_after (λ d. d.exemptions) (λ e. e.net) (read bytes.now) columns.old.exempt_net }
    ensures exempt_node_after { columns.new.exempt_node ≡ column_after (λ d. d.exemptions) (λ e. e.node) (read bytes.now) columns.old.exempt_node }
{
    let header = scan(bytes)?;
    let segments = Entries {
        bytes,
        at: 5,
        width: 29,
        count: header.segments,
    };
    segments.fill(0, &mut columns.net);
    segments.fill(4, &mut columns.orientation);
    segments.fill(5, &mut columns.fixed);
    segments.fill(13, &mut columns.start);
    segments.fill(21, &mut columns.end);
    let nodes_at = 5 + 29 * header.segments;
    let nodes = Entries {
        bytes,
        at: nodes_at + 4,
        width: 36,
        count: header.nodes,
    };
    nodes.fill(0, &mut columns.id);
    nodes.fill(4, &mut columns.x);
    nodes.fill(12, &mut columns.y);
    nodes.fill(20, &mut columns.width);
    nodes.fill(28, &mut columns.height);
    let exemptions_at = nodes_at + 4 + 36 * header.nodes;
    let exemptions = Entries {
        bytes,
        at: exemptions_at + 4,
        width: 8,
        count: header.exemptions,
    };
    exemptions.fill(0, &mut columns.exempt_net);
    exemptions.fill(4, &mut columns.exempt_node);
    Ok(header)
}
