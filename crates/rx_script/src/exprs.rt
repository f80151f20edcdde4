// Reads an expression with the open pairs of parentheses on a list, without recursion.
ghost use Rattle.std.specs.Prelude.{◌≡◌, ◌+◌, ◌^◌, ◌<◌, ◌≤◌, List, [], ◌∷◌, ◌++◌, Result, length, vec_len, IfOk, OnOk};
ghost use Rattle.rx_rules.specs.Code.{Expr as Tree};
ghost use Rattle.rx_script.specs.Inside.Exprs.{expr};
ghost use Rattle.rx_script.specs.Inside.Pieces.{Grows, IsExprAnswer};
ghost use Rattle.rx_script.specs.Inside.Turns.{ExprReads, Steps};
ghost use Rattle.rx_script.specs.declared.exprs.Turn.TheVariants as turns;

use rx_base::NoMemory;
use rx_syntax::{Expr, ExprId, Keyword, NameId, Op, Sign, Token};

// A pair of parentheses that is open: before its first operand is whole, or after its operator.
#[derive(Clone, Copy, Debug, PartialEq, Eq)]
pub(crate) enum OpenPair {
    First,
    Second(ExprId, Op),
}

// What comes next.
#[derive(Clone, Copy, Debug, PartialEq, Eq)]
pub(crate) enum Turn {
    Operand,
    After(ExprId),
}

fn add(exprs: &mut Vec<Expr>, expr: Expr) -> Result<Turn, NoMemory>
    requires { vec_len exprs.old < 2 ^ 32 }
    ensures { IfOk result (λ t. (exprs.new.items ≡ exprs.old.items ++ expr ∷ [])
        × (t ≡ turns.After (record { 0 = length exprs.old.items }))) }
{
    let id = ExprId(exprs.len() as u32);
    exprs.push(expr)?;
    Ok(Turn::After(id))
}

// One token more where an operand is awaited.
fn operand_step(
    exprs: &mut Vec<Expr>,
    pairs: &mut Vec<OpenPair>,
    token: Token,
) -> Result<Option<Turn>, NoMemory>
    requires { vec_len exprs.old < 2 ^ 32 }
    ensures grows { OnOk result (Grows exprs.old.items exprs.new.items) }
    ensures step { IfOk result (λ went. (ts : List Token) (o : Result (Tree × List Token) (List Token))
        → ExprReads exprs.old.items pairs.old.items turns.Operand (token ∷ ts) o
        → Steps exprs.new.items pairs.new.items went token ts o) }
    ensures few { OnOk result (vec_len exprs.new ≤ vec_len exprs.old + 1) }
{
    match token {
        Token::Number(value) => Ok(Some(add(exprs, Expr::Num(value))?)),
        Token::Called(name) => Ok(Some(add(exprs, Expr::Name(NameId(name)))?)),
        Token::Key(Keyword::Here) => Ok(Some(add(exprs, Expr::Here)?)),
        Token::Mark(Sign::OpenParen) => {
            pairs.push(OpenPair::First)?;
            Ok(Some(Turn::Operand))
        }
        _ => Ok(None),
    }
}

// One token more after an operand, where this pair is the innermost.
fn whole_step(
    exprs: &mut Vec<Expr>,
    pairs: &mut Vec<OpenPair>,
    pair: OpenPair,
    id: ExprId,
    token: Token,
) -> Result<Option<Turn>, NoMemory>
    requires { vec_len exprs.old < 2 ^ 32 }
    ensures grows { OnOk result (Grows exprs.old.items exprs.new.items) }
    ensures step { IfOk result (λ went. (ts : List Token) (o : Result (Tree × List Token) (List Token))
        → ExprReads exprs.old.items (pairs.old.items ++ pair ∷ []) (turns.After id) (token ∷ ts) o
        → Steps exprs.new.items pairs.new.items went token ts o) }
    ensures few { OnOk result (vec_len exprs.new ≤ vec_len exprs.old + 1) }
{
    match pair {
        OpenPair::First => match token {
            Token::Oper(op) => {
                pairs.push(OpenPair::Second(id, op))?;
                Ok(Some(Turn::Operand))
            }
            _ => Ok(None),
        },
        OpenPair::Second(left, op) => match token {
            Token::Mark(Sign::CloseParen) => {
                Ok(Some(add(
                    exprs,
                    Expr::Bin {
                        op,
                        left,
                        right: id,
                    },
                )?))
            }
            _ => Ok(None),
        },
    }
}

// Reads the expression in front, or answers what is left from the token that can't go on.
pub(crate) fn expression<'a>(
    exprs: &mut Vec<Expr>,
    tokens: &'a [Token],
) -> Result<Result<(ExprId, &'a [Token]), &'a [Token]>, NoMemory>
    requires { vec_len exprs.old + length tokens.now < 2 ^ 32 }
    ensures grows { OnOk result (Grows exprs.old.items exprs.new.items) }
    ensures answer { IfOk result (λ r. IsExprAnswer exprs.new.items r (λ s. s.now) (expr tokens.now)) }
    ensures few { IfOk result (λ r. IfOk r (λ x. vec_len exprs.new + length x.1.now ≤ vec_len exprs.old + length tokens.now)) }
{
    let mut pairs: Vec<OpenPair> = Vec::new(*exprs.allocator());
    let mut rest = tokens;
    let mut turn = Turn::Operand;
    'tokens: loop {
        let went = match turn {
            Turn::Operand => {
                let Some((first, after)) = rest.split_first() else {
                    return Ok(Err(rest))
                };
                let Some(next) = operand_step(exprs, &mut pairs, *first)? else {
                    return Ok(Err(rest))
                };
                rest = after;
                next
            }
            Turn::After(id) => {
                let Some(pair) = pairs.pop() else {
                    return Ok(Ok((id, rest)))
                };
                let Some((first, after)) = rest.split_first() else {
                    return Ok(Err(rest))
                };
                let Some(next) = whole_step(exprs, &mut pairs, pair, id, *first)? else {
                    return Ok(Err(rest))
                };
                rest = after;
                next
            }
        };
        turn = went;
    }
}
