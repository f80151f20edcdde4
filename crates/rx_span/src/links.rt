// The longest chain of statements that are sorted.
ghost use Rattle.std.specs.Prelude.{◌≡◌, ◌<◌, ◌≤◌, ◌+◌, ◌*◌, ◌^◌, ℕ, List, map, length, IfOk};
ghost use Rattle.rx_rules.specs.Code.{Block};
ghost use Rattle.rx_syntax.specs.Shape.{Stands};
ghost use Rattle.rx_span.specs.Paths.{ArePaths};
ghost use Rattle.rx_span.specs.Inside.Sorting.{Descends, next_of, backwards, shared as going};
ghost use Rattle.rx_span.specs.Inside.Best.{pick, best_chains};
ghost use Rattle.rx_span.specs.Inside.Kept.{IsKept, Linked};

use crate::Steps;
use crate::chains::{Kept, better, lay, look};
use crate::paths::shared;
use rx_base::{Batch, NoMemory, Path};
use rx_check::{Program, checked};
use rx_order::mark_numbers;
use std::alloc::Global;
use std::sync::ledger::Ledger;

/// For each statement what follows it in its best chain, and the longest chain of all.
#[derive(Drop)]
pub(crate) struct Links {
    pub(crate) links: Vec<Kept>,
    pub(crate) longest: Kept,
}

/// Finds the best chain of each statement. The statements stand from the last to the first.
pub(crate) fn link<L: Ledger>(
    alloc: Global,
    program: &Program,
    paths: &[&[u32]],
    steps: &mut Steps<L>,
) -> Result<Links, NoMemory>
    requires few { length paths.now < 2 ^ 32 }
    requires descends { Descends (map (λ p. p.now) paths.now) }
    requires paths { (code : Block) → Stands program.now.script code → ArePaths code (map (λ p. p.now) paths.now) }
    ensures linked { (code : Block) → Stands program.now.script code → IfOk result (λ l. Linked
        (best_chains code (backwards (length paths.now) (map (λ p. p.now) paths.now))) (map (λ p. p.now) paths.now) l.links.items) }
    ensures longest { (code : Block) → Stands program.now.script code → IfOk result (λ l. IsKept
        (best_chains code (backwards (length paths.now) (map (λ p. p.now) paths.now))) l.longest
        (pick (best_chains code (backwards (length paths.now) (map (λ p. p.now) paths.now))))) }
    ensures looks { steps.new ≤ steps.old + 65 * length paths.now }
{
    checked(program);
    let mut links = Vec::with_capacity(alloc, paths.len())?;
    let mut rows = Vec::new(alloc);
    let mut marks = Vec::new(alloc);
    let mut passed = Kept::none();
    let mut from = 0;
    let mut at = 0;
    while at < paths.len() {
        let x = path_at(paths, at);
        let inside = lay(&mut rows, from, passed, x.len())?;
        mark_numbers(program, x, &mut marks)?;
        from = next_shared(paths, at);
        let looked = look(&rows, &marks, from, inside, steps);
        links.push(looked.follows)?;
        let own = Kept {
            length: looked.follows.length + 1,
            head: at as u32,
        };
        passed = better(own, looked.passed);
        at += 1;
    }
    Ok(Links {
        links,
        longest: passed,
    })
}

// The path at a position.
fn path_at<'a>(paths: &[&'a [u32]], at: usize) -> &'a [u32]
    requires { at < length paths.now }
    ensures { result.now ≡ next_of at (map (λ p. p.now) paths.now) }
{
    paths[at]
}

// How far a path goes together with the next, or 0 where it is the last.
fn next_shared(paths: &[&[u32]], at: usize) -> usize
    requires { at < length paths.now }
    ensures { result ≡ going (next_of (at + 1) (map (λ p. p.now) paths.now)) (next_of at (map (λ p. p.now) paths.now)) }
{
    if at + 1 < paths.len() {
        shared(path_at(paths, at + 1), path_at(paths, at))
    } else {
        0
    }
}

// The number of a kept chain's first statement.
fn head_of(kept: Kept) -> usize
    ensures { result ≡ kept.head }
{
    kept.head as usize
}

/// The statements of the longest chain.
pub(crate) fn read(
    alloc: Global,
    paths: &[&[u32]],
    links: &[Kept],
    longest: Kept,
) -> Result<Batch, NoMemory>
    requires { (cs : List (List (List ℕ))) × (c : List (List ℕ)) × Linked cs (map (λ p. p.now) paths.now) links.now
        × IsKept cs longest c }
    ensures { (cs : List (List (List ℕ))) (c : List (List ℕ)) → Linked cs (map (λ p. p.now) paths.now) links.now
        → IsKept cs longest c → IfOk result (λ chain. chain ≡ c) }
{
    let mut chain = Batch::open(alloc);
    let mut rest = longest;
    while rest.length > 0 {
        let head = head_of(rest);
        chain.push(Path::from_slice(alloc, path_at(paths, head))?)?;
        rest = links[head];
    }
    Ok(chain)
}
