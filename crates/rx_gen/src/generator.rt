// The program of a generated script. Its nodes are put down by their numbers; that they stand for the lines is proved, and the checker
// vouches for the script as for any other.
ghost use Rattle.std.specs.Prelude.{◌≡◌, ◌≤◌, ◌<◌, ◌+◌, ◌*◌, ◌%◌, ◌++◌, ◌∷◌, [], pos, true, map, IfOk, OnOk};
ghost use Rattle.rx_syntax.specs.Shape.{Stands};
ghost use Rattle.rx_syntax.specs.declared.nodes.Expr.TheVariants.{Num};
ghost use Rattle.rx_syntax.specs.declared.nodes.Stmt.TheVariants.{Print, AtAsync, Finish, Try};
ghost use Rattle.rx_gen.specs.Lines.{lines};

use rx_base::NoMemory;
use rx_check::{CheckCause, Program, check};
use rx_syntax::{BlockId, Expr, ExprId, Script, Stmt, StmtId};
use std::alloc::Global;

/// The program of so many lines, from 1 to 10,000, over so many places, from 1 to 16. Line i, from 0 on, is
/// `try { finish { at A async { at B async { print I; } } } } catch dead { }`, where A is i modulo the number of places, B is i + 1
/// modulo it, and I is i. Its work is five times the number of lines. `Err` comes only for lack of memory.
pub fn generate(alloc: Global, size: u32, places: u8) -> Result<Program, NoMemory>
    requires size { (1 ≤ size) × (size ≤ 10000) }
    requires places { (1 ≤ places) × (places ≤ 16) }
    ensures script { IfOk result (λ p. Stands p.script (lines places size)) }
    ensures work { IfOk result (λ p. p.work ≡ 5 * size) }
{
    let script = script(alloc, size, u32::from(places))?;
    match check(alloc, script) {
        Ok(program) => Ok(program),
        Err(fault) => match fault.cause {
            CheckCause::NoMemory => Err(NoMemory),
            CheckCause::Bad { rule: _, node: _ } => unreachable!(),
        },
    }
}

// The nodes of the lines so far: the statements and the expressions by number, the blocks but for that of the whole, and the statements
// that are the lines.
#[derive(Drop)]
struct Nodes {
    stmts: Vec<Stmt>,
    exprs: Vec<Expr>,
    blocks: Vec<Vec<StmtId>>,
    tops: Vec<StmtId>,
}

// The script, whose nodes are put down line by line.
fn script(alloc: Global, size: u32, places: u32) -> Result<Script, NoMemory>
    requires size { size ≤ 10000 }
    requires places { (1 ≤ places) × (places ≤ 16) }
    ensures { IfOk result (λ s. Stands s (lines places size)) }
{
    let mut nodes = no_nodes(alloc, size as usize)?;
    for i in 0..size {
        put_line(alloc, &mut nodes, i, places)?;
    }
    let Nodes {
        stmts,
        exprs,
        mut blocks,
        tops,
    } = nodes;
    let top = BlockId(5 * size);
    blocks.push(tops)?;
    Ok(Script::new(stmts, exprs, blocks, Vec::new(alloc), top))
}

// No nodes, with room for those of so many lines.
fn no_nodes(alloc: Global, size: usize) -> Result<Nodes, NoMemory>
    requires { size ≤ 10000 }
    ensures { IfOk result (λ n. (n.stmts.items ≡ []) × (n.exprs.items ≡ []) × (n.blocks.items ≡ []) × (n.tops.items ≡ [])) }
{
    Ok(Nodes {
        stmts: Vec::with_capacity(alloc, 5 * size)?,
        exprs: Vec::with_capacity(alloc, 3 * size)?,
        blocks: Vec::with_capacity(alloc, 5 * size + 1)?,
        tops: Vec::with_capacity(alloc, size)?,
    })
}

// Puts down the nodes of one line.
fn put_line(alloc: Global, nodes: &mut Nodes, i: u32, places: u32) -> Result<(), NoMemory>
    requires size { i < 10000 }
    requires places { (1 ≤ places) × (places ≤ 16) }
    ensures exprs { OnOk result (nodes.new.exprs.items ≡ nodes.old.exprs.items
        ++ Num (pos (i % places)) ∷ Num (pos ((i + 1) % places)) ∷ Num (pos i) ∷ []) }
    ensures stmts { OnOk result (nodes.new.stmts.items ≡ nodes.old.stmts.items
        ++ Print (record { 0 = 3 * i + 2 }) ∷ AtAsync (record { 0 = 3 * i + 1 }) (record { 0 = 5 * i })
        ∷ AtAsync (record { 0 = 3 * i }) (record { 0 = 5 * i + 1 }) ∷ Finish (record { 0 = 5 * i + 2 })
        ∷ Try (record { 0 = 5 * i + 3 }) true (record { 0 = 5 * i + 4 }) ∷ []) }
    ensures blocks { OnOk result (map (λ b. b.items) nodes.new.blocks.items ≡ map (λ b. b.items) nodes.old.blocks.items
        ++ (record { 0 = 5 * i } ∷ []) ∷ (record { 0 = 5 * i + 1 } ∷ []) ∷ (record { 0 = 5 * i + 2 } ∷ [])
        ∷ (record { 0 = 5 * i + 3 } ∷ []) ∷ [] ∷ []) }
    ensures tops { OnOk result (nodes.new.tops.items ≡ nodes.old.tops.items ++ record { 0 = 5 * i + 4 } ∷ []) }
{
    put_exprs(&mut nodes.exprs, i, places)?;
    put_stmts(&mut nodes.stmts, i)?;
    put_blocks(alloc, &mut nodes.blocks, i)?;
    nodes.tops.push(StmtId(5 * i + 4))?;
    Ok(())
}

// The expressions of a line: its places, and what it prints.
#[tactic(auto, using(std::proofs::Common::append_assoc))]
fn put_exprs(exprs: &mut Vec<Expr>, i: u32, places: u32) -> Result<(), NoMemory>
    requires size { i < 10000 }
    requires places { (1 ≤ places) × (places ≤ 16) }
    ensures { OnOk result (exprs.new.items ≡ exprs.old.items
        ++ Num (pos (i % places)) ∷ Num (pos ((i + 1) % places)) ∷ Num (pos i) ∷ []) }
{
    exprs.push(Expr::Num(i64::from(i % places)))?;
    exprs.push(Expr::Num(i64::from((i + 1) % places)))?;
    exprs.push(Expr::Num(i64::from(i)))?;
    Ok(())
}

// The statements of a line, the innermost first.
#[tactic(auto, using(std::proofs::Common::append_assoc))]
fn put_stmts(stmts: &mut Vec<Stmt>, i: u32) -> Result<(), NoMemory>
    requires { i < 10000 }
    ensures { OnOk result (stmts.new.items ≡ stmts.old.items
        ++ Print (record { 0 = 3 * i + 2 }) ∷ AtAsync (record { 0 = 3 * i + 1 }) (record { 0 = 5 * i })
        ∷ AtAsync (record { 0 = 3 * i }) (record { 0 = 5 * i + 1 }) ∷ Finish (record { 0 = 5 * i + 2 })
        ∷ Try (record { 0 = 5 * i + 3 }) true (record { 0 = 5 * i + 4 }) ∷ []) }
{
    stmts.push(Stmt::Print {
        value: ExprId(3 * i + 2),
    })?;
    stmts.push(Stmt::AtAsync {
        place: ExprId(3 * i + 1),
        body: BlockId(5 * i),
    })?;
    stmts.push(Stmt::AtAsync {
        place: ExprId(3 * i),
        body: BlockId(5 * i + 1),
    })?;
    stmts.push(Stmt::Finish {
        body: BlockId(5 * i + 2),
    })?;
    stmts.push(Stmt::Try {
        body: BlockId(5 * i + 3),
        dead_only: true,
        handler: BlockId(5 * i + 4),
    })?;
    Ok(())
}

// The blocks of a line, the innermost first, and that of its handler.
fn put_blocks(alloc: Global, blocks: &mut Vec<Vec<StmtId>>, i: u32) -> Result<(), NoMemory>
    requires { i < 10000 }
    ensures { OnOk result (map (λ b. b.items) blocks.new.items ≡ map (λ b. b.items) blocks.old.items
        ++ (record { 0 = 5 * i } ∷ []) ∷ (record { 0 = 5 * i + 1 } ∷ []) ∷ (record { 0 = 5 * i + 2 } ∷ [])
        ∷ (record { 0 = 5 * i + 3 } ∷ []) ∷ [] ∷ []) }
{
    put_block(alloc, blocks, 5 * i)?;
    put_block(alloc, blocks, 5 * i + 1)?;
    put_block(alloc, blocks, 5 * i + 2)?;
    put_block(alloc, blocks, 5 * i + 3)?;
    blocks.push(Vec::new(alloc))?;
    Ok(())
}

// A block of one statement.
fn put_block(alloc: Global, blocks: &mut Vec<Vec<StmtId>>, id: u32) -> Result<(), NoMemory>
    ensures { OnOk result (map (λ b. b.items) blocks.new.items ≡ map (λ b. b.items) blocks.old.items ++ (record { 0 = id } ∷ []) ∷ []) }
{
    let mut ids = Vec::with_capacity(alloc, 1)?;
    ids.push(StmtId(id))?;
    blocks.push(ids)?;
    Ok(())
}
