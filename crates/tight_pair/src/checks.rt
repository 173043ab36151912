// The checks of the call (SCOPE 12.1), in the order of SCOPE 7.
ghost use Rattle.std.specs.Prelude.{◌≡◌};
ghost use Rattle.drawing.specs.Refusals.{first_of};
ghost use Rattle.drawing.specs.Entries.{lent_segments, lent_nodes, lent_exemptions};
ghost use Rattle.tight_pair.specs.Conditions.{tight_pair_conditions};

use drawing::{Exemptions, Nodes, Refusal, Segments};
use list_checks::{check_entries, check_lists};

// The checks of the lists, then those of the entries.
pub(crate) fn check_tight_pair(
    segments: &Segments<'_>,
    nodes: &Nodes<'_>,
    exemptions: &Exemptions<'_>,
) -> Result<(), Refusal>
    ensures { result ≡ first_of (tight_pair_conditions (lent_segments segments.now) (lent_nodes nodes.now) (lent_exemptions exemptions.now)) }
{
    check_lists(segments, nodes, exemptions)?;
    check_entries(segments, nodes)
}
