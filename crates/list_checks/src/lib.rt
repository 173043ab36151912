// The checks of a call's input that the measures share, refusals 2 to 5, in the order of SCOPE 7. Nothing lent is written, and all entries are checked before any work starts.
#![tactic(auto)]

ghost use Rattle.std.specs.Prelude.{◌≡◌};
ghost use Rattle.laws.specs.Lists.{some_of};
ghost use Rattle.drawing.specs.Refusals.{first_of};
ghost use Rattle.drawing.specs.Entries as Entries;
ghost use Rattle.drawing.specs.Entries.{lent_segments, lent_nodes, lent_exemptions, segments, nodes};
ghost use Rattle.drawing.specs.Conditions as Conditions;
ghost use Rattle.drawing.specs.Checks as Checks;
ghost use Rattle.drawing.specs.Inner.Lengths.{SegmentsAgree, NodesAgree, compared_entry_conditions};

use drawing::{Exemptions, Nodes, Refusal, Segments, node_unfit, segment_unfit};

// SCOPE 7.2: the columns of one list differ in length.
pub fn segments_differ(segments: &Segments<'_>) -> bool
    ensures { result ≡ Checks.segments_differ (lent_segments segments.now) }
{
    let n = segments.net.len();
    if n != segments.orientation.len() {
        return true;
    }
    if n != segments.fixed.len() {
        return true;
    }
    if n != segments.start.len() {
        return true;
    }
    n != segments.end.len()
}

fn nodes_differ(nodes: &Nodes<'_>) -> bool
    ensures { result ≡ Checks.nodes_differ (lent_nodes nodes.now) }
{
    let n = nodes.id.len();
    if n != nodes.x.len() {
        return true;
    }
    if n != nodes.y.len() {
        return true;
    }
    if n != nodes.width.len() {
        return true;
    }
    n != nodes.height.len()
}

fn exemptions_differ(exemptions: &Exemptions<'_>) -> bool
    ensures { result ≡ Checks.exemptions_differ (lent_exemptions exemptions.now) }
{
    exemptions.net.len() != exemptions.node.len()
}

// SCOPE 7.3: a list holds more than 4,096 entries.
fn too_many(n: usize) -> bool
    ensures { result ≡ Conditions.too_many n }
{
    4096 < n
}

// SCOPE 7.4: the scratch is shorter than 32 times (segments + nodes) plus 64 words. This product might wrap; the number of entries that the scratch is long enough for cannot.
pub fn short_scratch(words: usize, segments: usize, nodes: usize) -> bool
    ensures { result ≡ Conditions.short_scratch words segments nodes }
{
    if words < 64 {
        return true;
    }
    let entries = (words - 64) / 32;
    if entries < segments {
        return true;
    }
    entries - segments < nodes
}

// SCOPE 7.5: unfit entries.
fn segments_unfit(segments: &Segments<'_>) -> bool
    requires { SegmentsAgree (lent_segments segments.now) }
    ensures { result ≡ some_of Conditions.unfit_segment (Entries.segments (lent_segments segments.now)) }
{
    (0..segments.net.len()).any(|i| segment_unfit(segments.at(i)))
}

fn nodes_unfit(nodes: &Nodes<'_>) -> bool
    requires { NodesAgree (lent_nodes nodes.now) }
    ensures { result ≡ some_of Conditions.unfit_node (Entries.nodes (lent_nodes nodes.now)) }
{
    (0..nodes.id.len()).any(|i| node_unfit(nodes.at(i)))
}

// The checks 2, 3, 4 and 5 of segments and the number of words of the scratch.
pub fn check_segments(segments: &Segments<'_>, words: usize) -> Result<(), Refusal>
    ensures { result ≡ first_of (Checks.segment_conditions (lent_segments segments.now) words) }
{
    if segments_differ(segments) {
        return Err(Refusal::ColumnsDiffer);
    }
    if too_many(segments.net.len()) {
        return Err(Refusal::TooManyEntries);
    }
    if short_scratch(words, segments.net.len(), 0) {
        return Err(Refusal::ShortScratch);
    }
    if segments_unfit(segments) {
        return Err(Refusal::InvalidInput);
    }
    Ok(())
}

// The checks 2, 3 and 5 of segments, for a call without scratch: `check_segments` tests the scratch between them.
pub fn check_segment_list(segments: &Segments<'_>) -> Result<(), Refusal>
    ensures { result ≡ first_of (Checks.segment_list_conditions (lent_segments segments.now)) }
{
    if segments_differ(segments) {
        return Err(Refusal::ColumnsDiffer);
    }
    if too_many(segments.net.len()) {
        return Err(Refusal::TooManyEntries);
    }
    if segments_unfit(segments) {
        return Err(Refusal::InvalidInput);
    }
    Ok(())
}

// The checks 2 and 3 of segments, nodes and exemptions.
pub fn check_lists(
    segments: &Segments<'_>,
    nodes: &Nodes<'_>,
    exemptions: &Exemptions<'_>,
) -> Result<(), Refusal>
    ensures { result ≡ first_of (Checks.list_conditions (lent_segments segments.now) (lent_nodes nodes.now) (lent_exemptions exemptions.now)) }
{
    if segments_differ(segments) {
        return Err(Refusal::ColumnsDiffer);
    }
    if nodes_differ(nodes) {
        return Err(Refusal::ColumnsDiffer);
    }
    if exemptions_differ(exemptions) {
        return Err(Refusal::ColumnsDiffer);
    }
    if too_many(segments.net.len()) {
        return Err(Refusal::TooManyEntries);
    }
    if too_many(nodes.id.len()) {
        return Err(Refusal::TooManyEntries);
    }
    if too_many(exemptions.net.len()) {
        return Err(Refusal::TooManyEntries);
    }
    Ok(())
}

// The check 5 of segments and nodes. Columns of one list that differ in length are refused first, with 2, so that it may be called with any columns.
pub fn check_entries(segments: &Segments<'_>, nodes: &Nodes<'_>) -> Result<(), Refusal>
    ensures { result ≡ first_of (compared_entry_conditions (lent_segments segments.now) (lent_nodes nodes.now)) }
{
    if segments_differ(segments) {
        return Err(Refusal::ColumnsDiffer);
    }
    if nodes_differ(nodes) {
        return Err(Refusal::ColumnsDiffer);
    }
    if segments_unfit(segments) {
        return Err(Refusal::InvalidInput);
    }
    if nodes_unfit(nodes) {
        return Err(Refusal::InvalidInput);
    }
    Ok(())
}
