// The parts of a script that lie between its blocks' ends: a statement without blocks, the front of one that has a block, the end of
// a block, or what begins a second block.
ghost use Rattle.std.specs.Prelude.{◌≡◌, ◌+◌, ◌^◌, ◌<◌, ◌≤◌, List, option_map, length, vec_len, IfOk, OnOk};
ghost use Rattle.rx_rules.specs.Code.{Expr as Tree, Get, Put};
ghost use Rattle.rx_syntax.specs.Grammar.{may_hold, may_turn};
ghost use Rattle.rx_syntax.specs.Shape.{ExprStands};
ghost use Rattle.rx_script.specs.Inside.Readers.{then, done, choose};
ghost use Rattle.rx_script.specs.Inside.Exprs.{expr};
ghost use Rattle.rx_script.specs.Inside.Items as read;
ghost use Rattle.rx_script.specs.Inside.Items.{item_at};
ghost use Rattle.rx_script.specs.Inside.Pieces.{mode_of, Grows, ItemStands, IsItemAnswer};
ghost use Rattle.rx_script.specs.Inside.Parts.{Passes, Leads, LeadsExpr};
ghost use Rattle.rx_syntax.specs.declared.nodes.Expr.{Expr as Part};
ghost use Rattle.rx_syntax.specs.declared.token.Token.TheVariants.{Number};

use crate::exprs::expression;
use rx_base::NoMemory;
use rx_syntax::{Expr, ExprId, Keyword, NameId, Sign, Stmt, Token};

// The front of a statement that has a block.
#[derive(Clone, Copy, Debug, PartialEq, Eq)]
pub(crate) enum Opener {
    Async,
    AtAsync(ExprId),
    At(ExprId),
    Finish,
    If(ExprId),
    Repeat(u32),
    Try,
}

#[derive(Clone, Copy, Debug, PartialEq, Eq)]
pub(crate) enum Item {
    Whole(Stmt),
    Open(Opener),
    Close,
    Else,
    Catch(bool),
}

// Where the next item stands.
#[derive(Clone, Copy, Debug, PartialEq, Eq)]
pub(crate) enum Mode {
    Outermost,
    Inside,
    AfterFirst,
    AfterBody,
}

// The value that was read and what is left after it, or what is left from the token that can't go on.
type Read<'a, T> = Result<(T, &'a [Token]), &'a [Token]>;

// A name.
fn called(tokens: &[Token]) -> Read<'_, NameId>
    ensures answer { Leads result (λ s. s.now) (λ n. n.0) (λ f. then (choose read.called) f tokens.now) }
    ensures shorter { IfOk result (λ x. length x.1.now ≤ length tokens.now) }
{
    match tokens.split_first() {
        Some((Token::Called(name), rest)) => Ok((NameId(*name), rest)),
        _ => Err(tokens),
    }
}

// The number as a count of words, where `new` may ask for so many.
fn words_of(value: i64) -> Option<u32>
    ensures { option_map (λ n. done n) result ≡ read.counted may_hold (Number value) }
{
    if 1 <= value && value <= 65_536 {
        Some(value as u32)
    } else {
        None
    }
}

// The number as a count of turns, where `repeat` may have so many.
fn turns_of(value: i64) -> Option<u32>
    ensures { option_map (λ n. done n) result ≡ read.counted may_turn (Number value) }
{
    if 0 <= value && value <= 1_000_000 {
        Some(value as u32)
    } else {
        None
    }
}

fn words(tokens: &[Token]) -> Read<'_, u32>
    ensures answer { Leads result (λ s. s.now) (λ n. n) (λ f. then (choose (read.counted may_hold)) f tokens.now) }
    ensures shorter { IfOk result (λ x. length x.1.now ≤ length tokens.now) }
{
    match tokens.split_first() {
        Some((Token::Number(value), rest)) => match words_of(*value) {
            Some(words) => Ok((words, rest)),
            None => Err(tokens),
        },
        _ => Err(tokens),
    }
}

fn times(tokens: &[Token]) -> Read<'_, u32>
    ensures answer { Leads result (λ s. s.now) (λ n. n) (λ f. then (choose (read.counted may_turn)) f tokens.now) }
    ensures shorter { IfOk result (λ x. length x.1.now ≤ length tokens.now) }
{
    match tokens.split_first() {
        Some((Token::Number(value), rest)) => match turns_of(*value) {
            Some(times) => Ok((times, rest)),
            None => Err(tokens),
        },
        _ => Err(tokens),
    }
}

fn brace(tokens: &[Token]) -> Result<&[Token], &[Token]>
    ensures answer { Passes result (λ s. s.now) (λ r. choose (read.brace r) tokens.now) }
    ensures shorter { IfOk result (λ s. length s.now ≤ length tokens.now) }
{
    match tokens.split_first() {
        Some((Token::Mark(Sign::OpenBrace), rest)) => Ok(rest),
        _ => Err(tokens),
    }
}

fn semicolon(tokens: &[Token]) -> Result<&[Token], &[Token]>
    ensures answer { Passes result (λ s. s.now) (λ r. choose (read.semicolon r) tokens.now) }
    ensures shorter { IfOk result (λ s. length s.now ≤ length tokens.now) }
{
    match tokens.split_first() {
        Some((Token::Mark(Sign::Semicolon), rest)) => Ok(rest),
        _ => Err(tokens),
    }
}

fn equals(tokens: &[Token]) -> Result<&[Token], &[Token]>
    ensures answer { Passes result (λ s. s.now) (λ r. choose (read.equals_then r) tokens.now) }
    ensures shorter { IfOk result (λ s. length s.now ≤ length tokens.now) }
{
    match tokens.split_first() {
        Some((Token::Mark(Sign::Equals), rest)) => Ok(rest),
        _ => Err(tokens),
    }
}

fn square(tokens: &[Token]) -> Result<&[Token], &[Token]>
    ensures answer { Passes result (λ s. s.now) (λ r. choose (read.square r) tokens.now) }
    ensures shorter { IfOk result (λ s. length s.now ≤ length tokens.now) }
{
    match tokens.split_first() {
        Some((Token::Mark(Sign::OpenSquare), rest)) => Ok(rest),
        _ => Err(tokens),
    }
}

fn end_square(tokens: &[Token]) -> Result<&[Token], &[Token]>
    ensures answer { Passes result (λ s. s.now) (λ r. choose (read.end_square r) tokens.now) }
    ensures shorter { IfOk result (λ s. length s.now ≤ length tokens.now) }
{
    match tokens.split_first() {
        Some((Token::Mark(Sign::CloseSquare), rest)) => Ok(rest),
        _ => Err(tokens),
    }
}

// The semicolon that ends an item.
fn ends(item: Item, tokens: &[Token]) -> Read<'_, Item>
    ensures answer { (es : List Part) (x : read.Item) → ItemStands es item x
        → IsItemAnswer es result (λ s. s.now) (read.ends x tokens.now) }
    ensures shorter { IfOk result (λ x. length x.1.now ≤ length tokens.now) }
{
    match semicolon(tokens) {
        Ok(rest) => Ok((item, rest)),
        Err(bad) => Err(bad),
    }
}

// The brace that ends an item.
fn opens(item: Item, tokens: &[Token]) -> Read<'_, Item>
    ensures answer { (es : List Part) (x : read.Item) → ItemStands es item x
        → IsItemAnswer es result (λ s. s.now) (read.opens x tokens.now) }
    ensures shorter { IfOk result (λ x. length x.1.now ≤ length tokens.now) }
{
    match brace(tokens) {
        Ok(rest) => Ok((item, rest)),
        Err(bad) => Err(bad),
    }
}

// A name and the sign that assigns to it.
fn assigned(tokens: &[Token]) -> Read<'_, NameId>
    ensures answer { Leads result (λ s. s.now) (λ n. n.0) (λ f. then (choose read.called)
        (λ n. choose (read.equals_then (f n))) tokens.now) }
    ensures shorter { IfOk result (λ x. length x.1.now ≤ length tokens.now) }
{
    match called(tokens) {
        Ok((name, rest)) => match equals(rest) {
            Ok(rest) => Ok((name, rest)),
            Err(bad) => Err(bad),
        },
        Err(bad) => Err(bad),
    }
}

// An expression and the semicolon after it.
fn value<'a>(exprs: &mut Vec<Expr>, tokens: &'a [Token]) -> Result<Read<'a, ExprId>, NoMemory>
    requires { vec_len exprs.old + length tokens.now < 2 ^ 32 }
    ensures grows { OnOk result (Grows exprs.old.items exprs.new.items) }
    ensures answer { IfOk result (λ r. LeadsExpr exprs.new.items r (λ s. s.now)
        (λ f. then expr (λ e. choose (read.semicolon (f e))) tokens.now)) }
    ensures few { IfOk result (λ r. IfOk r (λ x. vec_len exprs.new + length x.1.now ≤ vec_len exprs.old + length tokens.now)) }
{
    match expression(exprs, tokens)? {
        Ok((value, rest)) => match semicolon(rest) {
            Ok(rest) => Ok(Ok((value, rest))),
            Err(bad) => Ok(Err(bad)),
        },
        Err(bad) => Ok(Err(bad)),
    }
}

// An expression in square brackets.
fn index<'a>(exprs: &mut Vec<Expr>, tokens: &'a [Token]) -> Result<Read<'a, ExprId>, NoMemory>
    requires { vec_len exprs.old + length tokens.now < 2 ^ 32 }
    ensures grows { OnOk result (Grows exprs.old.items exprs.new.items) }
    ensures answer { IfOk result (λ r. LeadsExpr exprs.new.items r (λ s. s.now)
        (λ f. choose (read.square (then expr (λ e. choose (read.end_square (f e))))) tokens.now)) }
    ensures few { IfOk result (λ r. IfOk r (λ x. vec_len exprs.new + length x.1.now ≤ vec_len exprs.old + length tokens.now)) }
{
    match square(tokens) {
        Ok(rest) => match expression(exprs, rest)? {
            Ok((index, rest)) => match end_square(rest) {
                Ok(rest) => Ok(Ok((index, rest))),
                Err(bad) => Ok(Err(bad)),
            },
            Err(bad) => Ok(Err(bad)),
        },
        Err(bad) => Ok(Err(bad)),
    }
}

fn set_item<'a>(exprs: &mut Vec<Expr>, tokens: &'a [Token]) -> Result<Read<'a, Item>, NoMemory>
    requires { vec_len exprs.old + length tokens.now < 2 ^ 32 }
    ensures grows { OnOk result (Grows exprs.old.items exprs.new.items) }
    ensures answer { IfOk result (λ r. IsItemAnswer exprs.new.items r (λ s. s.now) (read.set_at tokens.now)) }
    ensures few { IfOk result (λ r. IfOk r (λ x. vec_len exprs.new + length x.1.now ≤ vec_len exprs.old + length tokens.now)) }
{
    match assigned(tokens) {
        Ok((name, rest)) => match value(exprs, rest)? {
            Ok((value, rest)) => Ok(Ok((Item::Whole(Stmt::Set { name, value }), rest))),
            Err(bad) => Ok(Err(bad)),
        },
        Err(bad) => Ok(Err(bad)),
    }
}

fn new_item(tokens: &[Token]) -> Read<'_, Item>
    ensures answer { (es : List Part) → IsItemAnswer es result (λ s. s.now) (read.new_at tokens.now) }
    ensures shorter { IfOk result (λ x. length x.1.now ≤ length tokens.now) }
{
    match assigned(tokens) {
        Ok((name, rest)) => match words(rest) {
            Ok((words, rest)) => ends(Item::Whole(Stmt::New { name, words }), rest),
            Err(bad) => Err(bad),
        },
        Err(bad) => Err(bad),
    }
}

// The index of a `get`, and its end.
fn get_index<'a>(
    exprs: &mut Vec<Expr>,
    name: NameId,
    target: NameId,
    tokens: &'a [Token],
) -> Result<Read<'a, Item>, NoMemory>
    requires { vec_len exprs.old + length tokens.now < 2 ^ 32 }
    ensures grows { OnOk result (Grows exprs.old.items exprs.new.items) }
    ensures answer { IfOk result (λ r. IsItemAnswer exprs.new.items r (λ s. s.now)
        (choose (read.square (then expr (λ e. choose (read.end_square (read.ends (read.Whole (Get name.0 target.0 e)))))))
        tokens.now)) }
    ensures few { IfOk result (λ r. IfOk r (λ x. vec_len exprs.new + length x.1.now ≤ vec_len exprs.old + length tokens.now)) }
{
    match index(exprs, tokens)? {
        Ok((index, rest)) => Ok(ends(
            Item::Whole(Stmt::Get {
                name,
                target,
                index,
            }),
            rest,
        )),
        Err(bad) => Ok(Err(bad)),
    }
}

fn get_item<'a>(exprs: &mut Vec<Expr>, tokens: &'a [Token]) -> Result<Read<'a, Item>, NoMemory>
    requires { vec_len exprs.old + length tokens.now < 2 ^ 32 }
    ensures grows { OnOk result (Grows exprs.old.items exprs.new.items) }
    ensures answer { IfOk result (λ r. IsItemAnswer exprs.new.items r (λ s. s.now) (read.get_at tokens.now)) }
    ensures few { IfOk result (λ r. IfOk r (λ x. vec_len exprs.new + length x.1.now ≤ vec_len exprs.old + length tokens.now)) }
{
    match assigned(tokens) {
        Ok((name, rest)) => match called(rest) {
            Ok((target, rest)) => get_index(exprs, name, target, rest),
            Err(bad) => Ok(Err(bad)),
        },
        Err(bad) => Ok(Err(bad)),
    }
}

// The value of a `put`, and its end.
fn put_value<'a>(
    exprs: &mut Vec<Expr>,
    target: NameId,
    index: ExprId,
    tokens: &'a [Token],
) -> Result<Read<'a, Item>, NoMemory>
    requires { vec_len exprs.old + length tokens.now < 2 ^ 32 }
    ensures grows { OnOk result (Grows exprs.old.items exprs.new.items) }
    ensures answer { (i : Tree) → ExprStands exprs.old.items index i
        → IfOk result (λ r. IsItemAnswer exprs.new.items r (λ s. s.now)
        (choose (read.equals_then (then expr (λ e. read.ends (read.Whole (Put target.0 i e))))) tokens.now)) }
    ensures few { IfOk result (λ r. IfOk r (λ x. vec_len exprs.new + length x.1.now ≤ vec_len exprs.old + length tokens.now)) }
{
    match equals(tokens) {
        Ok(rest) => match value(exprs, rest)? {
            Ok((value, rest)) => Ok(Ok((
                Item::Whole(Stmt::Put {
                    target,
                    index,
                    value,
                }),
                rest,
            ))),
            Err(bad) => Ok(Err(bad)),
        },
        Err(bad) => Ok(Err(bad)),
    }
}

fn put_item<'a>(exprs: &mut Vec<Expr>, tokens: &'a [Token]) -> Result<Read<'a, Item>, NoMemory>
    requires { vec_len exprs.old + length tokens.now < 2 ^ 32 }
    ensures grows { OnOk result (Grows exprs.old.items exprs.new.items) }
    ensures answer { IfOk result (λ r. IsItemAnswer exprs.new.items r (λ s. s.now) (read.put_at tokens.now)) }
    ensures few { IfOk result (λ r. IfOk r (λ x. vec_len exprs.new + length x.1.now ≤ vec_len exprs.old + length tokens.now)) }
{
    match called(tokens) {
        Ok((target, rest)) => match index(exprs, rest)? {
            Ok((index, rest)) => put_value(exprs, target, index, rest),
            Err(bad) => Ok(Err(bad)),
        },
        Err(bad) => Ok(Err(bad)),
    }
}

fn forget_item(tokens: &[Token]) -> Read<'_, Item>
    ensures answer { (es : List Part) → IsItemAnswer es result (λ s. s.now) (read.forget_at tokens.now) }
    ensures shorter { IfOk result (λ x. length x.1.now ≤ length tokens.now) }
{
    match called(tokens) {
        Ok((target, rest)) => ends(Item::Whole(Stmt::Forget { target }), rest),
        Err(bad) => Err(bad),
    }
}

fn census_item(tokens: &[Token]) -> Read<'_, Item>
    ensures answer { (es : List Part) → IsItemAnswer es result (λ s. s.now) (read.census_at tokens.now) }
    ensures shorter { IfOk result (λ x. length x.1.now ≤ length tokens.now) }
{
    match called(tokens) {
        Ok((name, rest)) => ends(Item::Whole(Stmt::Census { name }), rest),
        Err(bad) => Err(bad),
    }
}

fn print_item<'a>(exprs: &mut Vec<Expr>, tokens: &'a [Token]) -> Result<Read<'a, Item>, NoMemory>
    requires { vec_len exprs.old + length tokens.now < 2 ^ 32 }
    ensures grows { OnOk result (Grows exprs.old.items exprs.new.items) }
    ensures answer { IfOk result (λ r. IsItemAnswer exprs.new.items r (λ s. s.now) (read.print_at tokens.now)) }
    ensures few { IfOk result (λ r. IfOk r (λ x. vec_len exprs.new + length x.1.now ≤ vec_len exprs.old + length tokens.now)) }
{
    match value(exprs, tokens)? {
        Ok((value, rest)) => Ok(Ok((Item::Whole(Stmt::Print { value }), rest))),
        Err(bad) => Ok(Err(bad)),
    }
}

fn throw_item<'a>(exprs: &mut Vec<Expr>, tokens: &'a [Token]) -> Result<Read<'a, Item>, NoMemory>
    requires { vec_len exprs.old + length tokens.now < 2 ^ 32 }
    ensures grows { OnOk result (Grows exprs.old.items exprs.new.items) }
    ensures answer { IfOk result (λ r. IsItemAnswer exprs.new.items r (λ s. s.now) (read.throw_at tokens.now)) }
    ensures few { IfOk result (λ r. IfOk r (λ x. vec_len exprs.new + length x.1.now ≤ vec_len exprs.old + length tokens.now)) }
{
    match value(exprs, tokens)? {
        Ok((value, rest)) => Ok(Ok((Item::Whole(Stmt::Throw { value }), rest))),
        Err(bad) => Ok(Err(bad)),
    }
}

// What follows the place of an `at`.
fn at_body(place: ExprId, tokens: &[Token]) -> Read<'_, Item>
    ensures answer { (es : List Part) (e : Tree) → ExprStands es place e
        → IsItemAnswer es result (λ s. s.now) (choose (read.at_body e) tokens.now) }
    ensures shorter { IfOk result (λ x. length x.1.now ≤ length tokens.now) }
{
    match tokens.split_first() {
        Some((Token::Key(Keyword::Async), rest)) => {
            opens(Item::Open(Opener::AtAsync(place)), rest)
        }
        Some((Token::Mark(Sign::OpenBrace), rest)) => Ok((Item::Open(Opener::At(place)), rest)),
        _ => Err(tokens),
    }
}

fn at_item<'a>(exprs: &mut Vec<Expr>, tokens: &'a [Token]) -> Result<Read<'a, Item>, NoMemory>
    requires { vec_len exprs.old + length tokens.now < 2 ^ 32 }
    ensures grows { OnOk result (Grows exprs.old.items exprs.new.items) }
    ensures answer { IfOk result (λ r. IsItemAnswer exprs.new.items r (λ s. s.now) (read.at_at tokens.now)) }
    ensures few { IfOk result (λ r. IfOk r (λ x. vec_len exprs.new + length x.1.now ≤ vec_len exprs.old + length tokens.now)) }
{
    match expression(exprs, tokens)? {
        Ok((place, rest)) => Ok(at_body(place, rest)),
        Err(bad) => Ok(Err(bad)),
    }
}

fn if_item<'a>(exprs: &mut Vec<Expr>, tokens: &'a [Token]) -> Result<Read<'a, Item>, NoMemory>
    requires { vec_len exprs.old + length tokens.now < 2 ^ 32 }
    ensures grows { OnOk result (Grows exprs.old.items exprs.new.items) }
    ensures answer { IfOk result (λ r. IsItemAnswer exprs.new.items r (λ s. s.now) (read.if_at tokens.now)) }
    ensures few { IfOk result (λ r. IfOk r (λ x. vec_len exprs.new + length x.1.now ≤ vec_len exprs.old + length tokens.now)) }
{
    match expression(exprs, tokens)? {
        Ok((test, rest)) => Ok(opens(Item::Open(Opener::If(test)), rest)),
        Err(bad) => Ok(Err(bad)),
    }
}

fn repeat_item(tokens: &[Token]) -> Read<'_, Item>
    ensures answer { (es : List Part) → IsItemAnswer es result (λ s. s.now) (read.repeat_at tokens.now) }
    ensures shorter { IfOk result (λ x. length x.1.now ≤ length tokens.now) }
{
    match times(tokens) {
        Ok((times, rest)) => opens(Item::Open(Opener::Repeat(times)), rest),
        Err(bad) => Err(bad),
    }
}

// A statement without blocks, or the front of one that has a block.
fn statement<'a>(exprs: &mut Vec<Expr>, tokens: &'a [Token]) -> Result<Read<'a, Item>, NoMemory>
    requires { vec_len exprs.old + length tokens.now < 2 ^ 32 }
    ensures grows { OnOk result (Grows exprs.old.items exprs.new.items) }
    ensures answer { IfOk result (λ r. IsItemAnswer exprs.new.items r (λ s. s.now) (choose read.statement tokens.now)) }
    ensures few { IfOk result (λ r. IfOk r (λ x. vec_len exprs.new + length x.1.now ≤ vec_len exprs.old + length tokens.now)) }
{
    match tokens.split_first() {
        Some((Token::Key(Keyword::Set), rest)) => set_item(exprs, rest),
        Some((Token::Key(Keyword::New), rest)) => Ok(new_item(rest)),
        Some((Token::Key(Keyword::Get), rest)) => get_item(exprs, rest),
        Some((Token::Key(Keyword::Put), rest)) => put_item(exprs, rest),
        Some((Token::Key(Keyword::Forget), rest)) => Ok(forget_item(rest)),
        Some((Token::Key(Keyword::Census), rest)) => Ok(census_item(rest)),
        Some((Token::Key(Keyword::Print), rest)) => print_item(exprs, rest),
        Some((Token::Key(Keyword::Throw), rest)) => throw_item(exprs, rest),
        Some((Token::Key(Keyword::Async), rest)) => Ok(opens(Item::Open(Opener::Async), rest)),
        Some((Token::Key(Keyword::At), rest)) => at_item(exprs, rest),
        Some((Token::Key(Keyword::Finish), rest)) => Ok(opens(Item::Open(Opener::Finish), rest)),
        Some((Token::Key(Keyword::If), rest)) => if_item(exprs, rest),
        Some((Token::Key(Keyword::Repeat), rest)) => Ok(repeat_item(rest)),
        Some((Token::Key(Keyword::Try), rest)) => Ok(opens(Item::Open(Opener::Try), rest)),
        _ => Ok(Err(tokens)),
    }
}

fn statement_or_end<'a>(
    exprs: &mut Vec<Expr>,
    tokens: &'a [Token],
) -> Result<Read<'a, Item>, NoMemory>
    requires { vec_len exprs.old + length tokens.now < 2 ^ 32 }
    ensures grows { OnOk result (Grows exprs.old.items exprs.new.items) }
    ensures answer { IfOk result (λ r. IsItemAnswer exprs.new.items r (λ s. s.now) (choose read.statement_or_end tokens.now)) }
    ensures few { IfOk result (λ r. IfOk r (λ x. vec_len exprs.new + length x.1.now ≤ vec_len exprs.old + length tokens.now)) }
{
    match tokens.split_first() {
        Some((Token::Mark(Sign::CloseBrace), rest)) => Ok(Ok((Item::Close, rest))),
        _ => statement(exprs, tokens),
    }
}

fn else_word(tokens: &[Token]) -> Read<'_, Item>
    ensures answer { (es : List Part) → IsItemAnswer es result (λ s. s.now) (choose read.else_word tokens.now) }
    ensures shorter { IfOk result (λ x. length x.1.now ≤ length tokens.now) }
{
    match tokens.split_first() {
        Some((Token::Key(Keyword::Else), rest)) => opens(Item::Else, rest),
        _ => Err(tokens),
    }
}

// What follows a `catch`.
fn dead_word(tokens: &[Token]) -> Read<'_, Item>
    ensures answer { (es : List Part) → IsItemAnswer es result (λ s. s.now) (choose read.dead_word tokens.now) }
    ensures shorter { IfOk result (λ x. length x.1.now ≤ length tokens.now) }
{
    match tokens.split_first() {
        Some((Token::Mark(Sign::OpenBrace), rest)) => Ok((Item::Catch(false), rest)),
        Some((Token::Key(Keyword::Dead), rest)) => opens(Item::Catch(true), rest),
        _ => Err(tokens),
    }
}

fn catch_word(tokens: &[Token]) -> Read<'_, Item>
    ensures answer { (es : List Part) → IsItemAnswer es result (λ s. s.now) (choose read.catch_word tokens.now) }
    ensures shorter { IfOk result (λ x. length x.1.now ≤ length tokens.now) }
{
    match tokens.split_first() {
        Some((Token::Key(Keyword::Catch), rest)) => dead_word(rest),
        _ => Err(tokens),
    }
}

// Reads the item in front, or answers what is left from the token that can't go on. The expressions of the item are added.
pub(crate) fn next_item<'a>(
    exprs: &mut Vec<Expr>,
    mode: Mode,
    tokens: &'a [Token],
) -> Result<Result<(Item, &'a [Token]), &'a [Token]>, NoMemory>
    requires { vec_len exprs.old + length tokens.now < 2 ^ 32 }
    ensures grows { OnOk result (Grows exprs.old.items exprs.new.items) }
    ensures answer { IfOk result (λ r. IsItemAnswer exprs.new.items r (λ s. s.now) (item_at (mode_of mode) tokens.now)) }
    ensures few { IfOk result (λ r. IfOk r (λ x. vec_len exprs.new + length x.1.now ≤ vec_len exprs.old + length tokens.now)) }
{
    match mode {
        Mode::Outermost => statement(exprs, tokens),
        Mode::Inside => statement_or_end(exprs, tokens),
        Mode::AfterFirst => Ok(else_word(tokens)),
        Mode::AfterBody => Ok(catch_word(tokens)),
    }
}
