ghost use Rattle.std.specs.Prelude.{◌≡◌, ◌≢◌, IfOk, IfErr};
ghost use Rattle.query_grammar.specs.Tree.{Tree};
ghost use Rattle.query_grammar.specs.Faults.{AreSome, Accepts, Refuses};
ghost use Rattle.query_grammar.specs.Laws.{IsUnlessMemory};

use crate::reader::Reader;
use query_grammar::limits::MOST_TOKENS;
use query_grammar::{Expr, ExprFault, Token};
use std::alloc::Global;

/// Reads an expression. It makes one pass over the tokens and doesn't call itself: what is open stands on a stack of its own,
/// of at most 64 places.
pub fn parse(alloc: Global, tokens: &[Token]) -> Result<Expr, ExprFault>
    // The tree or the fault that it answers is that of the grammar.
    ensures accepted { IfOk result (λ tree. Accepts tokens.now tree) }
    ensures refused { IfErr result (λ fault. fault ≢ ExprFault.Memory → Refuses tokens.now fault) }

    // The tree or the fault that the grammar has is answered, unless there is no memory.
    ensures accepts { (tree : Tree) → Accepts tokens.now tree → IsUnlessMemory result (Ok tree) }
    ensures refuses { (fault : ExprFault) → Refuses tokens.now fault → IsUnlessMemory result (Err fault) }
{
    if tokens.is_empty() {
        return Err(ExprFault::Empty);
    }
    if tokens.len() > MOST_TOKENS {
        return Err(ExprFault::TooLong);
    }
    read_all(alloc, tokens)
}

fn read_all(alloc: Global, tokens: &[Token]) -> Result<Expr, ExprFault>
    requires { AreSome tokens.now }
    ensures accepted { IfOk result (λ tree. Accepts tokens.now tree) }
    ensures refused { IfErr result (λ fault. fault ≢ ExprFault.Memory → Refuses tokens.now fault) }
{
    let mut reader = Reader::new(alloc);
    for (place, token) in tokens.iter().enumerate() {
        reader = reader.step(alloc, place, *token)?;
    }
    reader.finish(alloc)
}
