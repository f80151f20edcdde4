// The longest chain of statements of a history.
ghost use Rattle.std.specs.Prelude.{◌≡◌, ◌<◌, ◌≤◌, ◌+◌, ◌*◌, ◌^◌, length, IfOk};
ghost use Rattle.rx_rules.specs.Code.{Block};
ghost use Rattle.rx_rules.specs.Order.{told};
ghost use Rattle.rx_syntax.specs.Shape.{Stands};
ghost use Rattle.rx_history_laws.specs.Once.{AllDiffer};
ghost use Rattle.rx_span.specs.Paths.{ArePaths};
ghost use Rattle.rx_span.specs.Chains.{IsSpan};

use crate::links::{link, read};
use crate::paths::{sorted, statements};
use crate::{Span, Steps};
use rx_base::NoMemory;
use rx_check::{Program, checked};
use rx_history::History;
use std::alloc::Global;
use std::marker::Brand;
use std::sync::ledger::{Blank, Ledger};

/// The number of statements that a history tells and the longest chain of them, as docs/semantics.md states it under "The order of
/// statements". The history tells paths of the program alone, none of them twice, and fewer than 2^32. The time is that of a sort of
/// the paths, and linear in their numbers; the memory is in proportion to the statements. The only refusal is out of memory.
pub fn span(alloc: Global, program: &Program, history: &History) -> Result<Span, NoMemory>
    requires few { length (told history.now.entries) < 2 ^ 32 }
    requires paths { (code : Block) → Stands program.now.script code → ArePaths code (told history.now.entries) }
    requires once { AllDiffer (told history.now.entries) }
    ensures { (code : Block) → Stands program.now.script code → IfOk result (λ s. IsSpan code (told history.now.entries) s.statements
        s.chain) }
{
    span_from::<Brand>(alloc, program, history, Blank::new(1))
}

// The span, counted on a new ledger.
fn span_from<L: Ledger>(
    alloc: Global,
    program: &Program,
    history: &History,
    blank: Blank,
) -> Result<Span, NoMemory>
    requires name { blank.name ≡ L.name }
    requires parts { blank.parts ≡ L.parts }
    requires some { 0 < blank.parts }
    requires few { length (told history.now.entries) < 2 ^ 32 }
    requires paths { (code : Block) → Stands program.now.script code → ArePaths code (told history.now.entries) }
    requires once { AllDiffer (told history.now.entries) }
    ensures { (code : Block) → Stands program.now.script code → IfOk result (λ s. IsSpan code (told history.now.entries) s.statements
        s.chain) }
{
    let mut steps = Steps::open(blank);
    span_counted::<L>(alloc, program, history, &mut steps)
}

/// The same, and counts its looks: a look reads one kept chain. There are at most 65 for each statement.
pub fn span_counted<L: Ledger>(
    alloc: Global,
    program: &Program,
    history: &History,
    steps: &mut Steps<L>,
) -> Result<Span, NoMemory>
    requires few { length (told history.now.entries) < 2 ^ 32 }
    requires paths { (code : Block) → Stands program.now.script code → ArePaths code (told history.now.entries) }
    requires once { AllDiffer (told history.now.entries) }
    ensures span { (code : Block) → Stands program.now.script code → IfOk result (λ s. IsSpan code (told history.now.entries)
        s.statements s.chain) }
    ensures looks { steps.new ≤ steps.old + 65 * length (told history.now.entries) }
{
    checked(program);
    let copies = statements(alloc, history)?;
    let paths = sorted(alloc, &copies)?;
    let linked = link(alloc, program, &paths, steps)?;
    let chain = read(alloc, &paths, &linked.links, linked.longest)?;
    Ok(Span {
        statements: paths.len() as u32,
        chain,
    })
}
