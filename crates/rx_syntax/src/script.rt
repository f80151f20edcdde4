// A script by number, and the tree that it stands for.
ghost use Rattle.std.specs.Prelude.{◌≡◌, ◌<◌, Some, IfSome, map, slice_get, length};
ghost use Rattle.rx_rules.specs.Code.{Block};
ghost use Rattle.rx_syntax.specs.Shape.{Stands};
ghost use Rattle.rx_syntax.specs.Arenas.{shape_from};
ghost use Rattle.rx_syntax.specs.Whole.{IsWhole};
ghost use Rattle.rx_syntax.specs.Grammar.{AllInRange, spellings};
ghost use Rattle.rx_syntax.specs.Tokens.{AreNames};
ghost use Rattle.rx_syntax.specs.Texts.{AreSpelled};

use crate::nodes::{BlockId, Expr, ExprId, NameId, Stmt, StmtId};
use std::marker::Model;

/// A script: its statements, expressions, blocks and names by number, and the block of the whole. It always stands for a tree of
/// statements of the grammar, which contracts see by `Stands`.
#[derive(Drop)]
pub struct Script {
    stmts: Vec<Stmt>,
    exprs: Vec<Expr>,
    blocks: Vec<Vec<StmtId>>,
    names: Vec<Vec<u8>>,
    top: BlockId,
}

impl Model for Script {
    ghost use Rattle.rx_syntax.specs.Shape.{Shape};
    ghost use Rattle.rx_syntax.specs.Arenas.{shape_from};
    ghost use Rattle.rx_syntax.specs.Whole.{IsWhole};

    ghost Value = { Shape };

    ghost view = { λ a. shape_from a.stmts a.exprs a.blocks a.names a.top };

    ghost invariant = { λ a. IsWhole (shape_from a.stmts a.exprs a.blocks a.names a.top) };
}

impl Script {
    /// The script of these statements, expressions, blocks and names, where they stand for a tree of statements of the grammar.
    pub fn new(
        stmts: Vec<Stmt>,
        exprs: Vec<Expr>,
        blocks: Vec<Vec<StmtId>>,
        names: Vec<Vec<u8>>,
        top: BlockId,
    ) -> Script
        requires { IsWhole (shape_from stmts exprs blocks names top) }
        ensures { result ≡ shape_from stmts exprs blocks names top }
    {
        Script {
            stmts,
            exprs,
            blocks,
            names,
            top,
        }
    }

    /// The block of the whole script.
    pub fn top(&self) -> BlockId
        ensures { result ≡ self.now.top }
    {
        self.top
    }

    /// A statement.
    pub fn stmt(&self, id: StmtId) -> Stmt
        requires { id.0 < length self.now.stmts }
        ensures { slice_get self.now.stmts id.0 ≡ Some result }
    {
        self.stmts[id.0 as usize]
    }

    /// An expression.
    pub fn expr(&self, id: ExprId) -> Expr
        requires { id.0 < length self.now.exprs }
        ensures { slice_get self.now.exprs id.0 ≡ Some result }
    {
        self.exprs[id.0 as usize]
    }

    /// How many statements a block has.
    pub fn block_len(&self, block: BlockId) -> u32
        requires { block.0 < length self.now.blocks }
        ensures { IfSome (slice_get self.now.blocks block.0) (λ ids. result ≡ length ids) }
    {
        self.blocks[block.0 as usize].len() as u32
    }

    /// The statement at a position in a block, from 0.
    pub fn block_item(&self, block: BlockId, i: u32) -> StmtId
        requires block { block.0 < length self.now.blocks }
        requires item { IfSome (slice_get self.now.blocks block.0) (λ ids. i < length ids) }
        ensures { IfSome (slice_get self.now.blocks block.0) (λ ids. slice_get ids i ≡ Some result) }
    {
        self.blocks[block.0 as usize][i as usize]
    }

    /// The names, by number.
    pub fn names(&self) -> &[Vec<u8>]
        ensures { map (λ n. n.items) result.now ≡ self.now.names }
    {
        &self.names
    }
}

/// A law: each script stands for statements of the grammar, with its names.
pub fn whole(script: &Script)
    ensures { (t : Block) × Stands script.now t × AllInRange t × AreNames script.now.names (spellings t) × AreSpelled (spellings t) }
{
    let _ = &script.top;
}
