// From a script to bytes, without recursion: what is still to be written stands on a list.
ghost use Rattle.std.specs.Prelude.{◌≡◌, ◌<◌, ◌+◌, ◌++◌, ◌∷◌, ℕ, List, pos, reverse, OnOk, OnErr};
ghost use Rattle.std.specs.List.{flat_map};
ghost use Rattle.rx_rules.specs.Code.{Block};
ghost use Rattle.rx_syntax.specs.declared.token.Token.TheVariants.{Key, Number};
ghost use Rattle.rx_script.specs.declared.writer.Part.TheVariants.{One as OnePart, From as FromPart};
ghost use Rattle.rx_syntax.specs.Shape.{Stands};
ghost use Rattle.rx_syntax.specs.Grammar.{spellings, IsScriptOf};
ghost use Rattle.rx_syntax.specs.declared.token.Token.{Token};
ghost use Rattle.rx_syntax.specs.Texts.{spaced};
ghost use Rattle.rx_script.specs.Writing.{script_text};
ghost use Rattle.rx_script.specs.Inside.Unwritten.{PartStands, PartsStand, front_of, parts_after, named as named_part, block_parts};
ghost use Rattle.rx_script.specs.Inside.Unwritten.{catch_parts, expr_front, expr_rest, Wrote, turns_left};

use rx_base::NoMemory;
use rx_syntax::{BlockId, Expr, ExprId, Keyword, NameId, Script, Sign, Stmt, Token, whole};

// What is still to be written: a token, an expression, or the statements of a block from a position on.
#[derive(Clone, Copy, Debug, PartialEq, Eq)]
pub(crate) enum Part {
    One(Token),
    Value(ExprId),
    From(BlockId, u32),
}

// Appends a blank and the bytes of a token.
fn put_token(text: &mut Vec<u8>, script: &Script, token: Token) -> Result<(), NoMemory>
    ensures { OnOk result (text.new.items ≡ text.old.items ++ spaced script.now.names token) }
{
    rx_syntax::put_token(text, script.names(), token)
}

// Puts parts in front of the others; the last of the list is the one in front.
fn put_parts(parts: &mut Vec<Part>, more: &[Part]) -> Result<(), NoMemory>
    ensures { OnOk result (parts.new.items ≡ parts.old.items ++ reverse more.now) }
{
    let mut left = more;
    'parts: while let Some((last, before)) = left.split_last() {
        parts.push(*last)?;
        left = before;
    }
    Ok(())
}

// The parts of the signs that stand in statements and expressions.

const SEMICOLON: Part = Part::One(Token::Mark(Sign::Semicolon));

const EQUALS: Part = Part::One(Token::Mark(Sign::Equals));

const OPEN: Part = Part::One(Token::Mark(Sign::OpenBrace));

const CLOSE: Part = Part::One(Token::Mark(Sign::CloseBrace));

const OPEN_SQUARE: Part = Part::One(Token::Mark(Sign::OpenSquare));

const CLOSE_SQUARE: Part = Part::One(Token::Mark(Sign::CloseSquare));

const CLOSE_PAREN: Part = Part::One(Token::Mark(Sign::CloseParen));

fn number(n: u32) -> Part
    ensures { result ≡ OnePart (Number (pos n)) }
{
    Part::One(Token::Number(i64::from(n)))
}

fn named(name: NameId) -> Part
    ensures { result ≡ named_part name }
{
    Part::One(Token::Called(name.0))
}

fn key(word: Keyword) -> Part
    ensures { result ≡ OnePart (Key word) }
{
    Part::One(Token::Key(word))
}

// Appends the first token of an expression, and puts the parts after it in front of the others.
fn put_expr(
    text: &mut Vec<u8>,
    parts: &mut Vec<Part>,
    script: &Script,
    expr: Expr,
) -> Result<(), NoMemory>
    ensures text { OnOk result (text.new.items ≡ text.old.items ++ spaced script.now.names (expr_front expr)) }
    ensures parts { OnOk result (parts.new.items ≡ parts.old.items ++ reverse (expr_rest expr)) }
{
    match expr {
        Expr::Num(value) => put_token(text, script, Token::Number(value)),
        Expr::Name(name) => put_token(text, script, Token::Called(name.0)),
        Expr::Here => put_token(text, script, Token::Key(Keyword::Here)),
        Expr::Bin { op, left, right } => {
            put_parts(
                parts,
                &[
                    Part::Value(left),
                    Part::One(Token::Oper(op)),
                    Part::Value(right),
                    CLOSE_PAREN,
                ],
            )?;
            put_token(text, script, Token::Mark(Sign::OpenParen))
        }
    }
}

// The first token of a statement.
fn word_of(stmt: Stmt) -> Keyword
    ensures { front_of stmt ≡ Key result }
{
    match stmt {
        Stmt::Set { .. } => Keyword::Set,
        Stmt::New { .. } => Keyword::New,
        Stmt::Get { .. } => Keyword::Get,
        Stmt::Put { .. } => Keyword::Put,
        Stmt::Forget { .. } => Keyword::Forget,
        Stmt::Census { .. } => Keyword::Census,
        Stmt::Print { .. } => Keyword::Print,
        Stmt::Throw { .. } => Keyword::Throw,
        Stmt::Async { .. } => Keyword::Async,
        Stmt::AtAsync { .. } => Keyword::At,
        Stmt::At { .. } => Keyword::At,
        Stmt::Finish { .. } => Keyword::Finish,
        Stmt::If { .. } => Keyword::If,
        Stmt::Repeat { .. } => Keyword::Repeat,
        Stmt::Try { .. } => Keyword::Try,
    }
}

// Puts a block with its braces in front of the other parts.
fn put_block(parts: &mut Vec<Part>, body: BlockId) -> Result<(), NoMemory>
    ensures { OnOk result (parts.new.items ≡ parts.old.items ++ reverse (block_parts body)) }
{
    put_parts(parts, &[OPEN, Part::From(body, 0), CLOSE])
}

// Puts what stands between a body and the brace of its handler in front of the other parts.
fn put_catch(parts: &mut Vec<Part>, dead_only: bool) -> Result<(), NoMemory>
    ensures { OnOk result (parts.new.items ≡ parts.old.items ++ reverse (catch_parts dead_only)) }
{
    match dead_only {
        true => put_parts(parts, &[key(Keyword::Catch), key(Keyword::Dead)]),
        false => put_parts(parts, &[key(Keyword::Catch)]),
    }
}

// Puts the parts of a statement after its first token in front of the others.
#[tactic(auto, using(std::proofs::Common::append_assoc))]
fn put_rest(parts: &mut Vec<Part>, stmt: Stmt) -> Result<(), NoMemory>
    ensures { OnOk result (parts.new.items ≡ parts.old.items ++ reverse (parts_after stmt)) }
{
    match stmt {
        Stmt::Set { name, value } => put_parts(
            parts,
            &[named(name), EQUALS, Part::Value(value), SEMICOLON],
        ),
        Stmt::New { name, words } => put_parts(
            parts,
            &[named(name), EQUALS, number(words), SEMICOLON],
        ),
        Stmt::Get {
            name,
            target,
            index,
        } => {
            put_parts(parts, &[Part::Value(index), CLOSE_SQUARE, SEMICOLON])?;
            put_parts(parts, &[named(name), EQUALS, named(target), OPEN_SQUARE])
        }
        Stmt::Put {
            target,
            index,
            value,
        } => {
            put_parts(
                parts,
                &[CLOSE_SQUARE, EQUALS, Part::Value(value), SEMICOLON],
            )?;
            put_parts(parts, &[named(target), OPEN_SQUARE, Part::Value(index)])
        }
        Stmt::Forget { target } => put_parts(parts, &[named(target), SEMICOLON]),
        Stmt::Census { name } => put_parts(parts, &[named(name), SEMICOLON]),
        Stmt::Print { value } => put_parts(parts, &[Part::Value(value), SEMICOLON]),
        Stmt::Throw { value } => put_parts(parts, &[Part::Value(value), SEMICOLON]),
        Stmt::Async { body } => put_block(parts, body),
        Stmt::AtAsync { place, body } => {
            put_block(parts, body)?;
            put_parts(parts, &[Part::Value(place), key(Keyword::Async)])
        }
        Stmt::At { place, body } => {
            put_block(parts, body)?;
            put_parts(parts, &[Part::Value(place)])
        }
        Stmt::Finish { body } => put_block(parts, body),
        Stmt::If { test, first, other } => {
            put_block(parts, other)?;
            put_parts(parts, &[key(Keyword::Else)])?;
            put_block(parts, first)?;
            put_parts(parts, &[Part::Value(test)])
        }
        Stmt::Repeat { times, body } => {
            put_block(parts, body)?;
            put_parts(parts, &[number(times)])
        }
        Stmt::Try {
            body,
            dead_only,
            handler,
        } => {
            put_block(parts, handler)?;
            put_catch(parts, dead_only)?;
            put_block(parts, body)
        }
    }
}

// Appends the first token of the statement at a position in a block, and puts what follows it in front of the other parts.
fn put_item(
    text: &mut Vec<u8>,
    parts: &mut Vec<Part>,
    script: &Script,
    block: BlockId,
    i: u32,
) -> Result<(), NoMemory>
    requires { (ts : List Token) × PartStands script.now (FromPart block i) ts }
    ensures wrote { OnOk result ((ts : List Token)
        → PartsStand script.now (FromPart block i ∷ reverse parts.old.items) ts
        → Wrote script.now text.old.items text.new.items (reverse parts.new.items) ts) }
    ensures falls { OnOk result (turns_left text.new.items parts.new.items < turns_left text.old.items parts.old.items + 1) }
{
    if i < script.block_len(block) {
        let stmt = script.stmt(script.block_item(block, i));
        parts.push(Part::From(block, i + 1))?;
        put_rest(parts, stmt)?;
        put_token(text, script, Token::Key(word_of(stmt)))
    } else {
        Ok(())
    }
}

// Appends what a part begins with, and puts what follows it in front of the other parts.
fn put_part(
    text: &mut Vec<u8>,
    parts: &mut Vec<Part>,
    script: &Script,
    part: Part,
) -> Result<(), NoMemory>
    requires { (ts : List Token) × PartStands script.now part ts }
    ensures wrote { OnOk result ((ts : List Token)
        → PartsStand script.now (part ∷ reverse parts.old.items) ts
        → Wrote script.now text.old.items text.new.items (reverse parts.new.items) ts) }
    ensures falls { OnOk result (turns_left text.new.items parts.new.items < turns_left text.old.items parts.old.items + 1) }
{
    match part {
        Part::One(token) => put_token(text, script, token),
        Part::Value(id) => put_expr(text, parts, script, script.expr(id)),
        Part::From(block, i) => put_item(text, parts, script, block, i),
    }
}

// Appends all that is still to be written.
fn put_all(text: &mut Vec<u8>, mut parts: Vec<Part>, script: &Script) -> Result<(), NoMemory>
    requires { (ts : List Token) × PartsStand script.now (reverse parts.items) ts }
    ensures { OnOk result ((ts : List Token) → PartsStand script.now (reverse parts.items) ts
        → text.new.items ≡ text.old.items ++ flat_map (spaced script.now.names) ts) }
{
    'parts: while let Some(part) = parts.pop() {
        put_part(text, &mut parts, script, part)?;
    }
    Ok(())
}

// Appends the tokens of a script, each with a blank in front.
fn put_script(text: &mut Vec<u8>, script: &Script) -> Result<(), NoMemory>
    ensures { OnOk result ((t : Block) → Stands script.now t
        → text.new.items ≡ text.old.items ++ flat_map (spaced script.now.names) (spellings t)) }
{
    whole(script);
    let mut parts = Vec::new(*text.allocator());
    parts.push(Part::From(script.top(), 0))?;
    put_all(text, parts, script)
}

// Appends the text of a script.
fn put_text(script: &Script, out: &mut Vec<u8>) -> Result<(), NoMemory>
    ensures ok { OnOk result ((t : Block) → Stands script.now t → out.new.items ≡ out.old.items ++ script_text script.now.names t) }
    ensures err { OnErr result (out.new.items ≡ out.old.items) }
{
    // The text is made apart, so that a refusal in the middle leaves `out` as it was.
    let mut text = Vec::new(*out.allocator());
    put_script(&mut text, script)?;
    text.push(b'\n')?;
    match text.as_slice() {
        [b' ', line @ ..] => out.extend_from_slice(line)?,
        line => out.extend_from_slice(line)?,
    }
    Ok(())
}

/// Appends the tokens of a script with one blank between two, and a newline. What is appended reads back to the same script. A
/// refusal leaves `out` as it was. The nesting of the script costs no stack; time and memory are in proportion to the text.
pub fn write_script(script: &Script, out: &mut Vec<u8>) -> Result<(), NoMemory>
    ensures ok { OnOk result ((t : Block) → Stands script.now t → out.new.items ≡ out.old.items ++ script_text script.now.names t) }
    ensures err { OnErr result (out.new.items ≡ out.old.items) }
    // What is appended is a script with the same names and a tree that this one stands for.
    ensures reads_back { OnOk result ((bytes : List ℕ) × (t : Block) × (out.new.items ≡ out.old.items ++ bytes)
        × Stands script.now t × IsScriptOf script.now.names bytes t) }
{
    whole(script);
    put_text(script, out)
}
