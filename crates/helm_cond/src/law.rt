// The grammar of conditions as a grammar is written.
ghost use Rattle.std.specs.Prelude.{◌≡◌, ◌↔◌, List, Some};
ghost use Rattle.helm_cond.specs.declared.symbol.Symbol.{Symbol};
ghost use Rattle.helm_cond.specs.Conditions.{Condition};
ghost use Rattle.helm_cond.specs.Grammar.{condition_said};
ghost use Rattle.helm_cond.specs.Phrases.{SpellsCondition};

/// Symbols say a condition exactly if they spell it by the grammar: conjunctions joined by `or`, each of operands joined by
/// `and`, which are comparisons, `not` before an operand, and conditions in parentheses, at most 64 one within another. It
/// does nothing.
pub fn grammar_law()
    ensures { (symbols : List Symbol) (one : Condition) → condition_said symbols ≡ Some one ↔ SpellsCondition 64 symbols one }
{}
