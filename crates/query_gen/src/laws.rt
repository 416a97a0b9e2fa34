//! What holds of each input that is made up. These functions do nothing.
ghost use Rattle.query_gen.specs.Laws.{GeneratedIsAccepted, GeneratedIsWithinLimits};

use query_model::laws::inputs_that_are_read;

/// An input that is made up, with at most 20,000 documents and 4,096 queries, is within the limits of an accepted one, for 64 and
/// fewer shards.
pub fn generated_is_within_limits()
    ensures { GeneratedIsWithinLimits }
{}

/// The canonical text of such an input is accepted as that input, for 64 and fewer shards.
pub fn generated_is_accepted()
    ensures { GeneratedIsAccepted }
{
    inputs_that_are_read();
}
