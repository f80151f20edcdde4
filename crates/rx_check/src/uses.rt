// What an expression uses. It may be nested as deep as a script is long, so it is gone through without recursion.
ghost use Rattle.std.specs.Prelude.{◌≡◌, ◌<◌, List, [], ◌∷◌, ◌++◌, IfOk, IfErr, OnOk};
ghost use Rattle.rx_rules.specs.Code.{Expr as TheExpr};
ghost use Rattle.rx_syntax.specs.Shape.{ExprStands};
ghost use Rattle.rx_check.specs.Inside.Walk.{join, no_uses, uses_in, uses_all, OptionStands, Yields, name_uses, pair_uses, weights};
ghost use Rattle.rx_check.specs.declared.uses.Uses.{Uses as TheUses};
ghost use Rattle.rx_check.specs.declared.checker.CheckCause.TheVariants.{NoMemory};

use crate::CheckCause;
use crate::names::{Kind, is_known, kind_of};
use crate::walk::Walk;
use rx_syntax::{Expr, ExprId, NameId, Script};
use std::alloc::Global;

// What is wrong with an expression: a name that is not known, a reference, or more than 32 pairs of parentheses in one another.
#[derive(Clone, Copy, Debug, PartialEq, Eq)]
pub(crate) struct Uses {
    pub(crate) unknown: bool,
    pub(crate) reference: bool,
    pub(crate) deep: bool,
}

// A part of an expression that waits, and how many pairs of parentheses may still stand in it.
#[derive(Clone, Copy, Debug, PartialEq, Eq)]
pub(crate) struct Part {
    pub(crate) id: ExprId,
    pub(crate) pairs: u32,
}

const NO_USES: Uses = Uses {
    unknown: false,
    reference: false,
    deep: false,
};

impl Uses {
    // Both together.
    pub(crate) fn join(self, other: Uses) -> Uses
        ensures { result ≡ join self other }
    {
        Uses {
            unknown: self.unknown || other.unknown,
            reference: self.reference || other.reference,
            deep: self.deep || other.deep,
        }
    }
}

// What a name in an expression uses.
fn name_use(walk: &Walk, name: NameId) -> Uses
    ensures { result ≡ name_uses walk.now name.0 }
{
    Uses {
        unknown: !is_known(&walk.known, name),
        reference: kind_of(&walk.seen, name) == Some(Kind::Reference),
        deep: false,
    }
}

// Takes a part that waits: what it uses itself is added, and its operands wait.
fn take_part(
    walk: &Walk,
    script: &Script,
    waiting: &mut Vec<Part>,
    part: Part,
    so_far: Uses,
) -> Result<Uses, CheckCause>
    requires { (e : TheExpr) × ExprStands script.now.exprs part.id e }
    ensures uses { IfOk result (λ u. (v : TheUses) → Yields walk.now script.now.exprs (waiting.old.items ++ part ∷ []) v
        → (w : TheUses) × Yields walk.now script.now.exprs waiting.new.items w × (join so_far v ≡ join u w)) }
    ensures less { OnOk result (weights waiting.new.items < weights (waiting.old.items ++ part ∷ [])) }
    ensures why { IfErr result (λ e. e ≡ NoMemory) }
{
    match script.expr(part.id) {
        Expr::Num(_) => Ok(so_far),
        Expr::Name(name) => Ok(so_far.join(name_use(walk, name))),
        Expr::Here => Ok(so_far),
        Expr::Bin { left, right, .. } => {
            let pairs = part.pairs.saturating_sub(1);
            waiting.push(Part { id: left, pairs })?;
            waiting.push(Part { id: right, pairs })?;
            Ok(so_far.join(pair_use(part.pairs)))
        }
    }
}

// What a pair of parentheses uses, where so many may stand there.
fn pair_use(pairs: u32) -> Uses
    ensures { result ≡ pair_uses pairs }
{
    Uses {
        unknown: false,
        reference: false,
        deep: pairs == 0,
    }
}

// What an expression uses.
fn expr_use(alloc: Global, walk: &Walk, script: &Script, id: ExprId) -> Result<Uses, CheckCause>
    requires { (e : TheExpr) × ExprStands script.now.exprs id e }
    ensures uses { IfOk result (λ u. (e : TheExpr) → ExprStands script.now.exprs id e → u ≡ uses_in walk.now 32 e) }
    ensures why { IfErr result (λ e. e ≡ NoMemory) }
{
    let mut uses = NO_USES;
    let mut waiting = Vec::new(alloc);
    waiting.push(Part { id, pairs: 32 })?;
    'parts: while let Some(part) = waiting.pop() {
        uses = take_part(walk, script, &mut waiting, part, uses)?;
    }
    Ok(uses)
}

// What an expression uses that a statement may have.
pub(crate) fn option_use(
    alloc: Global,
    walk: &Walk,
    script: &Script,
    id: Option<ExprId>,
) -> Result<Uses, CheckCause>
    requires { (es : List TheExpr) × OptionStands script.now.exprs id es }
    ensures uses { IfOk result (λ u. (es : List TheExpr) → OptionStands script.now.exprs id es → u ≡ uses_all walk.now es) }
    ensures why { IfErr result (λ e. e ≡ NoMemory) }
{
    match id {
        None => Ok(NO_USES),
        Some(id) => expr_use(alloc, walk, script, id),
    }
}
