// A script that meets the rules.
ghost use Rattle.std.specs.Prelude.{◌≡◌, ◌≤◌};
ghost use Rattle.rx_rules.specs.Code.{Block, work};
ghost use Rattle.rx_syntax.specs.Shape.{Stands};
ghost use Rattle.rx_syntax.specs.Grammar.{AllInRange, spellings};
ghost use Rattle.rx_syntax.specs.Tokens.{AreNames};
ghost use Rattle.rx_check.specs.Checked.{Meets};

use rx_syntax::{Script, whole};
use std::marker::Model;

/// A checked script: it meets the five rules of docs/language.md.
#[derive(Drop)]
pub struct Program {
    pub(crate) script: Script,
    pub(crate) work: u64,
}

impl Model for Program {
    ghost use Rattle.rx_check.specs.Checked.{Checked, IsChecked};

    ghost Value = { Checked };

    ghost view = { λ p. record { script = p.script; work = p.work } };

    ghost invariant = { λ p. IsChecked (record { script = p.script; work = p.work }) };
}

impl Program {
    /// The script.
    pub fn script(&self) -> &Script
        ensures { result.now ≡ self.now.script }
    {
        &self.script
    }

    /// The work of the script, at most 100,000.
    pub fn work(&self) -> u64
        ensures { result ≡ self.now.work }
    {
        self.work
    }
}

/// A law: a checked script stands for statements of the grammar that meet the rules, with its names, and has their work.
pub fn checked(p: &Program)
    ensures { (t : Block) × Stands p.now.script t × AllInRange t × AreNames p.now.script.names (spellings t) × Meets t
        × (p.now.work ≡ work t) × (work t ≤ 100000) }
{
    whole(&p.script);
}
