// Laws of the definitions, each the contract of a function that does nothing.
ghost use Rattle.std.specs.Prelude.{[], ◌∷◌};
ghost use Rattle.rx_rules.specs.Examples.{orphan_script, at_waits};
ghost use Rattle.rx_rules.specs.Order.{told};
ghost use Rattle.rx_span.specs.Paths.{RunTellsPaths};
ghost use Rattle.rx_span.specs.Chains.{IsSpan, OneSpan};
ghost use Rattle.rx_span.specs.Examples.{script, statements};

/// The answer is determined: of one list of statements there is one number and one longest chain that comes first.
pub fn one_span()
    ensures { OneSpan }
{}

/// The history of a whole run tells paths of its script alone. With the law that it tells none of them twice, which is rx_history_laws'
/// `each_is_told_once`, a run meets the conditions of `span` but for the number of its statements.
pub fn run_tells_paths()
    ensures { RunTellsPaths }
{}

/// The definition computes: where the callee of an `at` is lost, the `at`, the handler and what follows the `try` are the longest
/// chain of seven statements; and an `async` is not before what follows it.
pub fn span_computes()
    ensures waiting { IsSpan orphan_script (told at_waits) 7 ((0 ∷ 0 ∷ 0 ∷ []) ∷ (0 ∷ 1 ∷ 0 ∷ []) ∷ (1 ∷ []) ∷ []) }
    ensures starting { IsSpan script statements 3 ((0 ∷ []) ∷ []) }
    ensures empty { IsSpan script [] 0 [] }
{}
