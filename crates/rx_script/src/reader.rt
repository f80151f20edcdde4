// From bytes to a script, without recursion: blocks may lie as deep as the bytes go.
ghost use Rattle.std.specs.Prelude.{◌≡◌, ℕ, ◌^◌, ◌<◌, ◌≤◌, [], length, vec_len, IfOk, OnOk, IsErrOf, IsTrue, ◌↔◌};
ghost use Rattle.rx_script.specs.declared.reader.ScriptFault.TheVariants.{NoMemory as NoRoom, Syntax};
ghost use Rattle.rx_script.specs.declared.items.Item.TheVariants.{Close, Else, Catch};
ghost use Rattle.rx_script.specs.declared.items.Mode.TheVariants.{Outermost};
ghost use Rattle.rx_script.specs.declared.reader.Owner.TheVariants.{Front};
ghost use Rattle.rx_rules.specs.Code.{Block};
ghost use Rattle.rx_syntax.specs.Grammar.{IsScriptOf, AllInRange, spellings};
ghost use Rattle.rx_syntax.specs.Tokens.{AreNames};
ghost use Rattle.rx_script.specs.Faults.{IsFaultAt};
ghost use Rattle.rx_syntax.specs.Texts.{AreSpelled};
ghost use Rattle.rx_syntax.specs.Shape.{Stands, ListStands, IsSmall};
ghost use Rattle.rx_syntax.specs.Tables.{names_of};
ghost use Rattle.rx_script.specs.Inside.Machine.{BlocksRead, mode};
ghost use Rattle.rx_script.specs.Inside.Pieces.{mode_of};
ghost use Rattle.rx_script.specs.Inside.Arena.{ReaderHolds, MayTake, Takes, Adds, Opens, Shuts, BlockMakes, GrowsByOne, IsParsed};
ghost use Rattle.rx_script.specs.Inside.Arena.{blocks_of, shape_of};

use crate::items::{Item, Mode, Opener, next_item};
use rx_base::NoMemory;
use rx_syntax::{BlockId, Expr, ExprId, Scanned, Script, Stmt, StmtId, Token, scan};
use std::alloc::{AllocError, AllocFailed, Global};

/// Why bytes were not read as a script.
#[derive(Clone, Copy, Debug, PartialEq, Eq)]
pub enum ScriptFault {
    /// The bytes are no script. `at` is the start of the first token that can't go on; the end of input is a token that starts at
    /// the input's length.
    Syntax { at: u32 },
    /// There is no memory left.
    NoMemory,
}

impl From<NoMemory> for ScriptFault {
    ghost from_gives = { λ _ e. e ≡ NoRoom };

    fn from(_: NoMemory) -> Self {
        ScriptFault::NoMemory
    }
}

impl From<AllocError> for ScriptFault {
    ghost from_gives = { λ _ e. e ≡ NoRoom };

    fn from(_: AllocError) -> Self {
        ScriptFault::NoMemory
    }
}

impl<T: Drop> From<AllocFailed<T>> for ScriptFault {
    ghost from_gives = { λ _ e. e ≡ NoRoom };

    fn from(_: AllocFailed<T>) -> Self {
        ScriptFault::NoMemory
    }
}

// What an open block belongs to: the front of a statement, or that and its first block.
#[derive(Clone, Copy, Debug, PartialEq, Eq)]
pub(crate) enum Owner {
    Front(Opener),
    Other { test: ExprId, first: BlockId },
    Handler { body: BlockId, dead_only: bool },
}

// A block that is open, and where its statements begin among those that are pending.
#[derive(Clone, Copy, Debug, PartialEq, Eq)]
pub(crate) struct Opened {
    owner: Owner,
    start: usize,
}

// A first block that is whole and must be followed by a second.
#[derive(Clone, Copy, Debug, PartialEq, Eq)]
pub(crate) enum Waiting {
    Free,
    ForElse { test: ExprId, first: BlockId },
    ForCatch { body: BlockId },
}

// What has been read: the statements, expressions and blocks that are whole, the statements of the open blocks, these blocks, and
// what waits.
#[derive(Drop)]
pub(crate) struct Reader {
    stmts: Vec<Stmt>,
    exprs: Vec<Expr>,
    blocks: Vec<Vec<StmtId>>,
    pending: Vec<StmtId>,
    frames: Vec<Opened>,
    waiting: Waiting,
}

// Adds a statement that is whole.
fn add(reader: &mut Reader, stmt: Stmt) -> Result<(), NoMemory>
    requires { vec_len reader.old.stmts < 2 ^ 31 }
    ensures { OnOk result (Adds reader.old stmt reader.new) }
{
    let id = StmtId(reader.stmts.len() as u32);
    reader.stmts.push(stmt)?;
    reader.pending.push(id)?;
    Ok(())
}

// Opens a block.
fn open(reader: &mut Reader, owner: Owner) -> Result<(), NoMemory>
    ensures { OnOk result (Opens reader.old owner reader.new) }
{
    let start = reader.pending.len();
    reader.frames.push(Opened { owner, start })?;
    reader.waiting = Waiting::Free;
    Ok(())
}

// Makes a block of the statements that are pending from there on.
fn shut(alloc: Global, reader: &mut Reader, start: usize) -> Result<BlockId, NoMemory>
    requires start { start ≤ vec_len reader.old.pending }
    requires blocks { vec_len reader.old.blocks < 2 ^ 31 }
    ensures shuts { OnOk result (Shuts reader.old start reader.new) }
    ensures block { IfOk result (λ k. k.0 ≡ vec_len reader.old.blocks) }
{
    let block = BlockId(reader.blocks.len() as u32);
    let ids = reader.pending[start..].to_vec(alloc)?;
    reader.pending.truncate(start);
    reader.blocks.push(ids)?;
    Ok(block)
}

// Makes what the front of a statement and its block are.
fn end_front(reader: &mut Reader, opener: Opener, body: BlockId) -> Result<(), NoMemory>
    requires { vec_len reader.old.stmts < 2 ^ 31 }
    ensures { OnOk result (BlockMakes reader.old (Front opener) body reader.new) }
{
    match opener {
        Opener::Async => add(reader, Stmt::Async { body }),
        Opener::AtAsync(place) => add(reader, Stmt::AtAsync { place, body }),
        Opener::At(place) => add(reader, Stmt::At { place, body }),
        Opener::Finish => add(reader, Stmt::Finish { body }),
        Opener::If(test) => {
            reader.waiting = Waiting::ForElse { test, first: body };
            Ok(())
        }
        Opener::Repeat(times) => add(reader, Stmt::Repeat { times, body }),
        Opener::Try => {
            reader.waiting = Waiting::ForCatch { body };
            Ok(())
        }
    }
}

// Makes what a block belongs to, now that the block is whole.
fn end_block(reader: &mut Reader, owner: Owner, block: BlockId) -> Result<(), NoMemory>
    requires { vec_len reader.old.stmts < 2 ^ 31 }
    ensures { OnOk result (BlockMakes reader.old owner block reader.new) }
{
    match owner {
        Owner::Front(opener) => end_front(reader, opener, block),
        Owner::Other { test, first } => add(
            reader,
            Stmt::If {
                test,
                first,
                other: block,
            },
        ),
        Owner::Handler { body, dead_only } => add(
            reader,
            Stmt::Try {
                body,
                dead_only,
                handler: block,
            },
        ),
    }
}

// Ends the innermost block.
fn close(alloc: Global, reader: &mut Reader) -> Result<(), NoMemory>
    requires stmts { vec_len reader.old.stmts < 2 ^ 31 }
    requires blocks { vec_len reader.old.blocks < 2 ^ 31 }
    requires may { MayTake reader.old Close }
    ensures takes { OnOk result (Takes reader.old Close reader.new) }
    ensures counts { OnOk result (GrowsByOne reader.old reader.new) }
{
    match reader.frames.pop() {
        None => unreachable!(),
        Some(opened) => {
            let block = shut(alloc, reader, opened.start)?;
            end_block(reader, opened.owner, block)
        }
    }
}

// Opens the block after `else`.
fn open_else(reader: &mut Reader) -> Result<(), NoMemory>
    requires { MayTake reader.old Else }
    ensures takes { OnOk result (Takes reader.old Else reader.new) }
    ensures counts { OnOk result (GrowsByOne reader.old reader.new) }
{
    match reader.waiting {
        Waiting::Free => unreachable!(),
        Waiting::ForElse { test, first } => open(reader, Owner::Other { test, first }),
        Waiting::ForCatch { body: _ } => unreachable!(),
    }
}

// Opens the block after `catch`.
fn open_handler(reader: &mut Reader, dead_only: bool) -> Result<(), NoMemory>
    requires { MayTake reader.old (Catch dead_only) }
    ensures takes { OnOk result (Takes reader.old (Catch dead_only) reader.new) }
    ensures counts { OnOk result (GrowsByOne reader.old reader.new) }
{
    match reader.waiting {
        Waiting::Free => unreachable!(),
        Waiting::ForElse { test: _, first: _ } => unreachable!(),
        Waiting::ForCatch { body } => open(reader, Owner::Handler { body, dead_only }),
    }
}

// Takes one item more, which may stand there.
fn take_item(alloc: Global, reader: &mut Reader, item: Item) -> Result<(), NoMemory>
    requires stmts { vec_len reader.old.stmts < 2 ^ 31 }
    requires blocks { vec_len reader.old.blocks < 2 ^ 31 }
    requires may { MayTake reader.old item }
    ensures takes { OnOk result (Takes reader.old item reader.new) }
    ensures counts { OnOk result (GrowsByOne reader.old reader.new) }
{
    match item {
        Item::Whole(stmt) => add(reader, stmt),
        Item::Open(opener) => open(reader, Owner::Front(opener)),
        Item::Close => close(alloc, reader),
        Item::Else => open_else(reader),
        Item::Catch(dead_only) => open_handler(reader, dead_only),
    }
}

// Where the next item stands.
fn next_mode(reader: &Reader) -> Mode
    ensures { (s : BlocksRead) → ReaderHolds reader.now s → mode_of result ≡ mode s }
{
    match reader.waiting {
        Waiting::Free => {
            if reader.frames.is_empty() {
                Mode::Outermost
            } else {
                Mode::Inside
            }
        }
        Waiting::ForElse { test: _, first: _ } => Mode::AfterFirst,
        Waiting::ForCatch { body: _ } => Mode::AfterBody,
    }
}

// Whether the tokens end where a script may end.
fn is_end(mode: Mode, rest: &[Token]) -> bool
    ensures { IsTrue result ↔ ((mode ≡ Outermost) × (rest.now ≡ [])) }
{
    match mode {
        Mode::Outermost => rest.is_empty(),
        Mode::Inside => false,
        Mode::AfterFirst => false,
        Mode::AfterBody => false,
    }
}

// Reads tokens. The answer is what has been read, or how many tokens are left from the one that can't go on.
fn parse(alloc: Global, tokens: &[Token]) -> Result<Result<Reader, usize>, NoMemory>
    requires { length tokens.now < 2 ^ 31 }
    ensures { IfOk result (λ r. IsParsed tokens.now r) }
{
    let mut reader = Reader {
        stmts: Vec::new(alloc),
        exprs: Vec::new(alloc),
        blocks: Vec::new(alloc),
        pending: Vec::new(alloc),
        frames: Vec::new(alloc),
        waiting: Waiting::Free,
    };
    let mut rest = tokens;
    'items: while !is_end(next_mode(&reader), rest) {
        let mode = next_mode(&reader);
        match next_item(&mut reader.exprs, mode, rest)? {
            Ok((item, after)) => {
                take_item(alloc, &mut reader, item)?;
                rest = after;
            }
            Err(bad) => return Ok(Err(bad.len())),
        }
    }
    Ok(Ok(reader))
}

// Makes a script of what was read, where no block is open.
fn finish(reader: Reader, names: Vec<Vec<u8>>) -> Result<Script, NoMemory>
    requires blocks { vec_len reader.blocks < 2 ^ 31 }
    requires pending { vec_len reader.pending < 2 ^ 31 }
    requires small { IsSmall (blocks_of reader) }
    requires stands { (t : Block) × ListStands (shape_of reader) reader.pending.items t × AllInRange t
        × AreNames (names_of names) (spellings t) × AreSpelled (spellings t) }
    ensures ok { IfOk result (λ s. (t : Block) → ListStands (shape_of reader) reader.pending.items t → Stands s t) }
    ensures names { IfOk result (λ s. s.names ≡ names_of names) }
{
    let Reader {
        stmts,
        exprs,
        mut blocks,
        pending,
        frames: _,
        waiting: _,
    } = reader;
    let top = BlockId(blocks.len() as u32);
    blocks.push(pending)?;
    Ok(Script::new(stmts, exprs, blocks, names, top))
}

/// Reads a script. `Syntax` comes exactly where the bytes are no script of the grammar, and `at` is the start of the first token that
/// can't go on. The nesting of the bytes costs no stack. docs/language.md states the tokens and the grammar.
pub fn read_script(alloc: Global, bytes: &[u8]) -> Result<Script, ScriptFault>
    requires { length bytes.now < 2 ^ 31 }
    ensures ok { IfOk result (λ s. (t : Block) × Stands s t × IsScriptOf s.names bytes.now t) }
    ensures syntax { (at : ℕ) → IsErrOf result (Syntax at) → IsFaultAt bytes.now at }
{
    let Scanned {
        tokens,
        starts,
        names,
    } = scan(alloc, bytes)?;
    match parse(alloc, &tokens)? {
        Ok(reader) => Ok(finish(reader, names)?),
        Err(left) => Err(ScriptFault::Syntax {
            at: starts[tokens.len() - left],
        }),
    }
}
