ghost use Rattle.std.specs.Prelude.{◌≡◌, ◌↔◌, ℕ, List};
ghost use Rattle.query_grammar.specs.Tree.{Tree};
ghost use Rattle.query_grammar.specs.declared.token.Token.{Token};
ghost use Rattle.query_grammar.specs.declared.fault.ExprFault.{ExprFault};
ghost use Rattle.query_grammar.specs.Grammar.{Reads, CanGoOn};
ghost use Rattle.query_grammar.specs.Depth.{HasDepth};
ghost use Rattle.query_grammar.specs.Faults.{Accepts, Refuses};
ghost use Rattle.query_grammar.specs.Laws.{HasAnswer, IsUnexpected, HasOpener};
ghost use Rattle.query_grammar.specs.Canonical.{KeepsCanonical};

/// The law of the grammar, for every list of tokens. It speaks of no parser.
pub fn grammar_law()
    // The grammar gives at most one tree.
    ensures one_tree { (tokens : List Token) (a b : Tree) → Reads tokens a → Reads tokens b → a ≡ b }

    // Each list of tokens is accepted or refused, not both, and refused with one fault.
    ensures answered { (tokens : List Token) → HasAnswer tokens }
    ensures not_both { (tokens : List Token) (tree : Tree) (fault : ExprFault) → Accepts tokens tree → ¬ Refuses tokens fault }
    ensures one_fault { (tokens : List Token) (a b : ExprFault) → Refuses tokens a → Refuses tokens b → a ≡ b }

    // Unexpected stands at the first token with which nothing that follows makes an expression.
    ensures unexpected { (tokens : List Token) (place : ℕ) → Refuses tokens (ExprFault.Unexpected place) ↔ IsUnexpected tokens place }

    // TooDeep stands at a Left or a Bang. Where an expression can go on, there is one depth.
    ensures too_deep { (tokens : List Token) (place : ℕ) → Refuses tokens (ExprFault.TooDeep place) → HasOpener tokens place }
    ensures some_depth { (tokens : List Token) → CanGoOn tokens → (n : ℕ) × HasDepth tokens n }
    ensures one_depth { (tokens : List Token) (m n : ℕ) → HasDepth tokens m → HasDepth tokens n → m ≡ n }
{}

/// Where some tokens are accepted with a tree, the canonical tokens of that tree are accepted with it: of all texts of a tree
/// the canonical one has the fewest tokens and the least depth.
pub fn canonical_tokens_are_accepted()
    ensures { KeepsCanonical }
{}
