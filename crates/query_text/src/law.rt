ghost use Rattle.std.specs.Prelude.{ℕ};
ghost use Rattle.query_model.specs.Pieces.{Bytes};
ghost use Rattle.query_model.specs.Laws.{IsDecided};

use query_expr::grammar_law;
use query_model::laws::input_is_decided;

/// The law of the grammar of lines, for all bytes and every number of shards: the bytes are accepted as exactly one input,
/// or refused with exactly one line and kind, and never both.
pub fn input_law()
    ensures { (bytes : Bytes) (shards : ℕ) → IsDecided bytes shards }
{
    grammar_law();
    input_is_decided();
}
