// The checks of the call, in the order of SCOPE 7.
ghost use Rattle.std.specs.Prelude.{◌≡◌};
ghost use Rattle.drawing.specs.Refusals.{first_of};
ghost use Rattle.drawing.specs.Entries.{lent_segments, lent_nodes, lent_exemptions};
ghost use Rattle.clearance.specs.Conditions.{clearance_conditions};

use drawing::{Exemptions, Nodes, Refusal, Segments, threshold_unfit};
use list_checks::{check_entries, check_lists, short_scratch};

// The checks of the lists, the scratch of the given number of words, the entries and the threshold.
pub fn check_clearance(
    segments: &Segments<'_>,
    nodes: &Nodes<'_>,
    exemptions: &Exemptions<'_>,
    threshold: f64,
    words: usize,
) -> Result<(), Refusal>
    ensures { result ≡ first_of (clearance_conditions (lent_segments segments.now) (lent_nodes nodes.now) (lent_exemptions exemptions.now) threshold words) }
{
    check_lists(segments, nodes, exemptions)?;
    if short_scratch(words, segments.net.len(), nodes.id.len()) {
        return Err(Refusal::ShortScratch);
    }
    check_entries(segments, nodes)?;
    if threshold_unfit(threshold) {
        return Err(Refusal::InvalidInput);
    }
    Ok(())
}
