// A walk over the statements of a script in the order of their first tokens.
ghost use Rattle.std.specs.Prelude.{◌≡◌, ℕ, suc, ◌+◌, ◌<◌, ◌≤◌, List, [], ◌∷◌, ◌++◌, Option, Some, None, option_map, Result, Ok, Err};
ghost use Rattle.std.specs.Prelude.{IfOk, IfErr, OnOk, IsErrOf};
ghost use Rattle.rx_rules.specs.Code.{Block, Stmt as TheStmt, work, work_of};
ghost use Rattle.rx_syntax.specs.Shape.{BlockStands, StmtIs};
ghost use Rattle.rx_check.specs.Rules.{ANumber, assigned, inside, learned, sights};
ghost use Rattle.rx_check.specs.Inside.Walk.{any_target, cap, gets_other_kind, is_of_kind, is_one_more, is_unknown, known_with, noted};
ghost use Rattle.rx_check.specs.Inside.Walk.{rule_from, rule_with, sights_run, seen_all, seen_as, seen_with, sofar_of, Extends, KnowsNames};
ghost use Rattle.rx_check.specs.declared.checker.CheckCause.TheVariants.{Bad, NoMemory};

use crate::CheckCause;
use crate::names::{Kind, Seen, is_known, kind_of};
use crate::parts::{Bodies, Parts, blocks, capped, split, total};
use crate::uses::{Uses, option_use};
use rx_syntax::{BlockId, NameId, Script, Stmt};
use std::alloc::Global;

// The names assigned so far, those that are known here, and how many statements were gone through.
#[derive(Drop)]
pub(crate) struct Walk {
    pub(crate) seen: Vec<Seen>,
    pub(crate) known: Vec<NameId>,
    pub(crate) count: u32,
}

// Whether a target is not known.
fn is_lost(walk: &Walk, target: Option<NameId>) -> bool
    ensures { result ≡ any_target (is_unknown walk.now) target }
{
    match target {
        None => false,
        Some(name) => !is_known(&walk.known, name),
    }
}

// Whether a target is a number.
fn is_number(walk: &Walk, target: Option<NameId>) -> bool
    ensures { result ≡ any_target (is_of_kind ANumber walk.now) target }
{
    match target {
        None => false,
        Some(name) => kind_of(&walk.seen, name) == Some(Kind::Number),
    }
}

// Whether a name gets another kind than it has.
fn is_other(seen: &[Seen], assigned: Option<Seen>) -> bool
    ensures { result ≡ gets_other_kind (seen_all seen.now) (option_map seen_as assigned) }
{
    match assigned {
        None => false,
        Some(one) => match kind_of(seen, one.name) {
            None => false,
            Some(kind) => kind != one.kind,
        },
    }
}

// Whether a name is one too many.
fn is_too_many(seen: &[Seen], assigned: Option<Seen>) -> bool
    ensures { result ≡ is_one_more (seen_all seen.now) (option_map seen_as assigned) }
{
    match assigned {
        None => false,
        Some(one) => seen.len() >= 32 && kind_of(seen, one.name).is_none(),
    }
}

// The least rule that a statement of these parts fails.
fn least_rule(walk: &Walk, uses: Uses, parts: Parts, depth: u32) -> Option<u8>
    ensures { result ≡ rule_from walk.now uses parts.target parts.assigned depth }
{
    if uses.unknown || is_lost(walk, parts.target) {
        Some(1)
    } else if uses.reference
        || is_number(walk, parts.target)
        || is_other(&walk.seen, parts.assigned)
    {
        Some(2)
    } else if depth > 32 || uses.deep {
        Some(3)
    } else if is_too_many(&walk.seen, parts.assigned) {
        Some(4)
    } else {
        None
    }
}

// The least rule that a statement fails.
fn rule(
    alloc: Global,
    walk: &Walk,
    script: &Script,
    stmt: Stmt,
    depth: u32,
) -> Result<Option<u8>, CheckCause>
    requires { (t : TheStmt) × StmtIs script.now stmt t }
    ensures rule { IfOk result (λ r. (t : TheStmt) (known : List ℕ) → KnowsNames walk.now.known.items known → StmtIs script.now stmt t
        → r ≡ rule_with (seen_all walk.now.seen.items) (record { stmt = t; depth = depth; known = known })) }
    ensures why { IfErr result (λ e. e ≡ NoMemory) }
{
    let parts = split(stmt);
    let first = option_use(alloc, walk, script, parts.first)?;
    let second = option_use(alloc, walk, script, parts.second)?;
    Ok(least_rule(walk, first.join(second), parts, depth))
}

// Adds a name with its kind, if it is new.
fn add_seen(seen: &mut Vec<Seen>, assigned: Option<Seen>) -> Result<(), CheckCause>
    ensures seen { OnOk result (seen_all seen.new.items ≡ seen_with (option_map seen_as assigned) (seen_all seen.old.items)) }
    ensures why { IfErr result (λ e. e ≡ NoMemory) }
{
    match assigned {
        None => Ok(()),
        Some(one) => {
            if kind_of(seen, one.name).is_none() {
                seen.push(one)?;
            }
            Ok(())
        }
    }
}

// Makes a name known, if it is not yet.
fn add_known(known: &mut Vec<NameId>, assigned: Option<Seen>) -> Result<(), CheckCause>
    ensures known { OnOk result (known.new.items ≡ known_with assigned known.old.items) }
    ensures why { IfErr result (λ e. e ≡ NoMemory) }
{
    match assigned {
        None => Ok(()),
        Some(one) => {
            if !is_known(known, one.name) {
                known.push(one.name)?;
            }
            Ok(())
        }
    }
}

impl Walk {
    // Counts a statement, and takes note of the name that it assigns. A count past 32 bits is answered as out of memory.
    fn note(&mut self, assigned: Option<Seen>) -> Result<(), CheckCause>
        ensures noted { OnOk result (sofar_of self.new ≡ noted (option_map seen_as assigned) (sofar_of self.old)) }
        ensures known { OnOk result (self.new.known ≡ self.old.known) }
        ensures why { IfErr result (λ e. e ≡ NoMemory) }
    {
        let Some(count) = self.count.checked_add(1) else {
            return Err(CheckCause::NoMemory);
        };
        add_seen(&mut self.seen, assigned)?;
        self.count = count;
        Ok(())
    }

    // Goes through a statement and those inside it. The answer is its work.
    #[cycle(walk)]
    fn statement(
        &mut self,
        alloc: Global,
        script: &Script,
        stmt: Stmt,
        depth: u32,
    ) -> Result<u64, CheckCause>
        requires stands { (t : TheStmt) × StmtIs script.now stmt t }
        requires depth { depth ≤ 33 }
        ensures ok { IfOk result (λ w. (t : TheStmt) (known : List ℕ) → KnowsNames self.old.known.items known → StmtIs script.now stmt t
            → (sights_run (sofar_of self.old) (record { stmt = t; depth = depth; known = known } ∷ inside known depth t)
            ≡ Ok (sofar_of self.new)) × KnowsNames self.new.known.items (learned (assigned t) known) × (w ≡ cap (work_of t))) }
        ensures bad { (rule node : ℕ) → IsErrOf result (Bad rule node) → (t : TheStmt) (known : List ℕ)
            → KnowsNames self.old.known.items known → StmtIs script.now stmt t
            → sights_run (sofar_of self.old) (record { stmt = t; depth = depth; known = known } ∷ inside known depth t) ≡ Err (rule, node) }
        ensures small { IfOk result (λ w. w ≤ 100001) }
        ensures kept { OnOk result (Extends self.old.known.items self.new.known.items) }
    {
        if let Some(rule) = rule(alloc, self, script, stmt, depth)? {
            return Err(CheckCause::Bad {
                rule,
                node: self.count,
            });
        }
        self.note(split(stmt).assigned)?;
        let work = self.inside(alloc, script, stmt, depth)?;
        add_known(&mut self.known, split(stmt).assigned)?;
        Ok(work)
    }

    // Goes through the statements inside a statement. The answer is the work of the statement.
    #[cycle(walk)]
    fn inside(
        &mut self,
        alloc: Global,
        script: &Script,
        stmt: Stmt,
        depth: u32,
    ) -> Result<u64, CheckCause>
        requires stands { (t : TheStmt) × StmtIs script.now stmt t }
        requires depth { depth ≤ 32 }
        ensures ok { IfOk result (λ w. (t : TheStmt) (known : List ℕ) → KnowsNames self.old.known.items known → StmtIs script.now stmt t
            → (sights_run (sofar_of self.old) (inside known depth t) ≡ Ok (sofar_of self.new)) × (w ≡ cap (work_of t))) }
        ensures bad { (rule node : ℕ) → IsErrOf result (Bad rule node) → (t : TheStmt) (known : List ℕ)
            → KnowsNames self.old.known.items known → StmtIs script.now stmt t
            → sights_run (sofar_of self.old) (inside known depth t) ≡ Err (rule, node) }
        ensures small { IfOk result (λ w. w ≤ 100001) }
        ensures kept { OnOk result (self.new.known.items ≡ self.old.known.items) }
    {
        match blocks(stmt) {
            Bodies::No => Ok(total(stmt, 0, 0)),
            Bodies::One(body) => {
                let work = self.block(alloc, script, body, depth + 1)?;
                Ok(total(stmt, work, 0))
            }
            Bodies::Two(body, other) => {
                let first = self.block(alloc, script, body, depth + 1)?;
                let second = self.block(alloc, script, other, depth + 1)?;
                Ok(total(stmt, first, second))
            }
        }
    }

    // Goes through the statements of a block. What is known in it is forgotten after it. The answer is its work.
    #[cycle(walk)]
    pub(crate) fn block(
        &mut self,
        alloc: Global,
        script: &Script,
        block: BlockId,
        depth: u32,
    ) -> Result<u64, CheckCause>
        requires stands { (t : Block) × BlockStands script.now block t }
        requires depth { depth ≤ 33 }
        ensures ok { IfOk result (λ w. (t : Block) (known : List ℕ) → KnowsNames self.old.known.items known
            → BlockStands script.now block t → (sights_run (sofar_of self.old) (sights known depth t) ≡ Ok (sofar_of self.new))
            × (w ≡ cap (work t))) }
        ensures bad { (rule node : ℕ) → IsErrOf result (Bad rule node) → (t : Block) (known : List ℕ)
            → KnowsNames self.old.known.items known → BlockStands script.now block t
            → sights_run (sofar_of self.old) (sights known depth t) ≡ Err (rule, node) }
        ensures small { IfOk result (λ w. w ≤ 100001) }
        ensures kept { OnOk result (self.new.known.items ≡ self.old.known.items) }
    {
        let start = self.known.len();
        let mut work = 0;
        'items: for i in 0..script.block_len(block) {
            let stmt = script.stmt(script.block_item(block, i));
            work = capped(work + self.statement(alloc, script, stmt, depth)?);
        }
        self.known.truncate(start);
        Ok(work)
    }
}
