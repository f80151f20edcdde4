// What no clause says: that a sort and a chain have memory enough.
ghost use Rattle.std.specs.Prelude.{◌≡◌, ◌<◌, [], ◌∷◌, IfOk};
ghost use Rattle.rx_rules.specs.Code.{Block};
ghost use Rattle.rx_rules.specs.Order.{told, told_in};
ghost use Rattle.rx_syntax.specs.Shape.{Stands};
ghost use Rattle.rx_span.specs.Paths.{ArePaths};

use crate::same::same;
use rx_base::{Batch, NoMemory, Path, TaskId};
use rx_check::{Program, check};
use rx_history::{Act, Entry, History, JoinList, KillList, Setup};
use rx_span::{Steps, span, span_counted};
use rx_syntax::{BlockId, Expr, ExprId, Script, Stmt, StmtId};
use std::alloc::Global;
use std::marker::Brand;
use std::sync::ledger::{Blank, Ledger};
use std::test::Fail;

// The script of `print 1; print 2;`.
fn script(alloc: Global) -> Result<Program, NoMemory>
    ensures { IfOk result (λ p. (code : Block) → Stands p.script code → ArePaths code ((0 ∷ []) ∷ (1 ∷ []) ∷ [])) }
{
    let first = Stmt::Print { value: ExprId(0) };
    let second = Stmt::Print { value: ExprId(1) };
    let script = Script::new(
        vec![in alloc; first, second]?,
        vec![in alloc; Expr::Num(1), Expr::Num(2)]?,
        vec![in alloc; vec![in alloc; StmtId(0), StmtId(1)]?]?,
        Vec::new(alloc),
        BlockId(0),
    );
    match check(alloc, script) {
        Ok(program) => Ok(program),
        Err(_) => Err(NoMemory),
    }
}

// An entry of the statement at a position of the script.
fn printed(alloc: Global, at: u32) -> Result<Entry, NoMemory>
    ensures { IfOk result (λ e. told_in e ≡ (at ∷ []) ∷ []) }
{
    let mut path = Path::open(alloc);
    path.push(at)?;
    Ok(Entry::Step {
        task: TaskId(0),
        act: Act::Print { value: 7, path },
        batch: Batch::open(alloc),
    })
}

// A history that tells both statements.
fn history(alloc: Global) -> Result<History, NoMemory>
    ensures { IfOk result (λ h. told h.entries ≡ (0 ∷ []) ∷ (1 ∷ []) ∷ []) }
{
    let setup = Setup {
        places: 1,
        heap: 1,
        kills: KillList::open(alloc),
        joins: JoinList::open(alloc),
    };
    let mut history = History::open(alloc, setup);
    history.reserve(2)?;
    history.add(printed(alloc, 0)?);
    history.add(printed(alloc, 1)?);
    Ok(history)
}

// The length of the longest chain, with the looks counted.
fn counted<L: Ledger>(
    alloc: Global,
    program: &Program,
    history: &History,
    blank: Blank,
) -> Result<usize, NoMemory>
    requires name { blank.name ≡ L.name }
    requires parts { blank.parts ≡ L.parts }
    requires some { 0 < blank.parts }
    requires told { told history.now.entries ≡ (0 ∷ []) ∷ (1 ∷ []) ∷ [] }
    requires paths { (code : Block) → Stands program.now.script code → ArePaths code ((0 ∷ []) ∷ (1 ∷ []) ∷ []) }
{
    let mut steps = Steps::open(blank);
    let span = span_counted::<L>(alloc, program, history, &mut steps)?;
    Ok(span.chain.len())
}

#[test]
fn two_statements_are_a_chain(rt: HostRuntime) -> Result<(), Fail> {
    let alloc = rt.alloc();
    let program = script(alloc)?;
    let history = history(alloc)?;
    let told = span(alloc, &program, &history)?;
    same(&rt, told.statements, 2);
    assert!(rt; told.chain.len() == 2);
    let chain = counted::<Brand>(alloc, &program, &history, Blank::new(1))?;
    same(&rt, chain, 2);
    Ok(())
}
