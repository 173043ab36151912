// The lines of a sheet, put into a text buffer (SCOPE 11.2 to 11.4).
ghost use Rattle.std.specs.Prelude.{[], ◌∷◌, ◌++◌};
ghost use Rattle.drawing.specs.Refusals.{number_of};
ghost use Rattle.text.specs.Text as Text;
ghost use Rattle.text.specs.Inner.TextPut.{Put};
ghost use Rattle.printing.specs.Fields as Fields;
ghost use Rattle.printing.specs.Sheet as Sheet;

use clearance::EdgeNodeClearance;
use congestion::CongestionReport;
use drawing::Refusal;
use separation::ParallelSeparation;
use text::TextBuffer;

fn put_gap(buffer: &mut TextBuffer<'_>, gap: Option<f64>)
    ensures { Put 16 buffer.old (Fields.gap_text gap) buffer.new }
{
    match gap {
        None => buffer.put_word(b"none"),
        Some(x) => buffer.put_float(x),
    }
}

// Fields, each with the space before it.
fn gap_field(buffer: &mut TextBuffer<'_>, gap: Option<f64>)
    ensures { Put 17 buffer.old (32 ∷ Fields.gap_text gap) buffer.new }
{
    buffer.put_byte(b' ');
    put_gap(buffer, gap);
}

fn float_field(buffer: &mut TextBuffer<'_>, x: f64)
    ensures { Put 17 buffer.old (32 ∷ Text.float_text x) buffer.new }
{
    buffer.put_byte(b' ');
    buffer.put_float(x);
}

fn count_field(buffer: &mut TextBuffer<'_>, count: usize)
    ensures { Put 21 buffer.old (32 ∷ Text.decimal «count») buffer.new }
{
    buffer.put_byte(b' ');
    buffer.put_decimal(count as u64);
}

// The end of a line: a gap and the visits.
fn gap_and_visits(buffer: &mut TextBuffer<'_>, gap: Option<f64>, visits: usize)
    ensures { Put 39 buffer.old (Fields.fields (Fields.gap_text gap ∷ Text.decimal visits ∷ [])) buffer.new }
{
    gap_field(buffer, gap);
    count_field(buffer, visits);
    buffer.put_byte(b'\n');
}

// What follows the name in the line of a refused measure or file.
fn refused_fields(buffer: &mut TextBuffer<'_>, why: Refusal)
    ensures { Put 30 buffer.old (Fields.fields (Sheet.refused_label ∷ Text.decimal (number_of why) ∷ [])) buffer.new }
{
    buffer.put_word(b" refused");
    count_field(buffer, u8::from(why) as usize);
    buffer.put_byte(b'\n');
}

pub(crate) fn file_refused(buffer: &mut TextBuffer<'_>, why: Refusal)
    ensures { Put 34 buffer.old (Sheet.refusal Sheet.file_label why) buffer.new }
{
    buffer.put_word(b"file");
    refused_fields(buffer, why);
}

// The lines of the three measures. They differ in their name and in which fields of which report they print, so that one function would take all that it prints from three others.
fn clearance_line(buffer: &mut TextBuffer<'_>, answer: Result<EdgeNodeClearance, Refusal>)
    ensures { Put 69 buffer.old (Sheet.clearance_line answer) buffer.new }
{
    buffer.put_word(b"clearance");
    match answer {
        Ok(report) => {
            gap_field(buffer, report.minimum_clearance);
            count_field(buffer, report.violations);
            count_field(buffer, report.visits);
            buffer.put_byte(b'\n');
        }
        Err(why) => refused_fields(buffer, why),
    }
}

fn separation_line(buffer: &mut TextBuffer<'_>, answer: Result<ParallelSeparation, Refusal>)
    ensures { Put 66 buffer.old (Sheet.separation_line answer) buffer.new }
{
    buffer.put_word(b"separation");
    match answer {
        Ok(report) => {
            gap_field(buffer, report.minimum);
            gap_and_visits(buffer, report.minimum_positive, report.visits);
        }
        Err(why) => refused_fields(buffer, why),
    }
}

fn congestion_line(buffer: &mut TextBuffer<'_>, answer: Result<CongestionReport, Refusal>)
    ensures { Put 121 buffer.old (Sheet.congestion_line answer) buffer.new }
{
    buffer.put_word(b"congestion");
    match answer {
        Ok(report) => {
            let lengths = report.congestion;
            float_field(buffer, lengths.total_length);
            float_field(buffer, lengths.congested_length);
            float_field(buffer, lengths.pair_overlap_length);
            count_field(buffer, lengths.peak_close_neighbors);
            gap_and_visits(buffer, report.minimum_positive, report.visits);
        }
        Err(why) => refused_fields(buffer, why),
    }
}

pub(crate) fn three_lines(
    buffer: &mut TextBuffer<'_>,
    clearance: Result<EdgeNodeClearance, Refusal>,
    separation: Result<ParallelSeparation, Refusal>,
    congestion: Result<CongestionReport, Refusal>,
)
    ensures { Put 256 buffer.old (Sheet.clearance_line clearance ++ (Sheet.separation_line separation ++ Sheet.congestion_line congestion)) buffer.new }
{
    clearance_line(buffer, clearance);
    separation_line(buffer, separation);
    congestion_line(buffer, congestion);
}
