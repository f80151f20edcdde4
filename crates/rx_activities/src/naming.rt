// Which ledger a run has.
ghost use Rattle.std.specs.Prelude.{◌≡◌};
ghost use Rattle.rx_activities.specs.Knowing.{IsOfRun};

use rx_book::Pass;
use rx_parts::EntryItem;
use std::marker::{Brand, Model, PhantomData};

/// The book of a run's ledger, as contracts see it. Each run picks it.
pub trait Naming {
    ghost use Rattle.rx_book.specs.Named.{BookName};
    ghost use Rattle.rx_objects.specs.declared.ledger.LedgerFixed.{LedgerFixed};

    ghost ledger: { BookName LedgerFixed };
}

impl Naming for Brand {
    ghost use Rattle.std.specs.Prelude.{[], None};

    ghost ledger = { record {
      word = record { words = 0; slots = 0; views_name = 0; atom = 0; block = 0; offset = 0; slot_names = [] };
      fixed = record {
        program = record { script = record { stmts = []; exprs = []; blocks = []; names = []; top = record { 0 = 0 } }; work = 0 };
        setup = record { places = 0; heap = 0; kills = []; joins = [] };
        places = [];
        board = None;
      };
    } };
}

/// A pass of the run's ledger, which has seen a legal history. It has no bytes.
#[derive(Drop)]
pub struct LedgerPass<N: Naming> {
    pass: Pass<EntryItem>,
    of: PhantomData<N>,
}

impl<N: Naming> Model for LedgerPass<N> {
    ghost use Rattle.rx_book.specs.declared.passes.Pass.{Pass};
    ghost use Rattle.rx_parts.specs.declared.items.EntryItem.{EntryItem};
    ghost use Rattle.rx_activities.specs.Knowing.{IsOfRun};

    ghost Value = { Pass EntryItem };

    ghost view = { λ p. p.pass };

    ghost invariant = { λ p. IsOfRun N.ledger p.pass };
}

impl<N: Naming> LedgerPass<N> {
    /// A pass of the run's ledger.
    pub fn of(pass: Pass<EntryItem>) -> LedgerPass<N>
        requires { IsOfRun N.ledger pass }
        ensures { result ≡ pass }
    {
        LedgerPass {
            pass,
            of: PhantomData,
        }
    }

    /// The pass.
    pub fn into_pass(self) -> Pass<EntryItem>
        ensures same { result ≡ self }
        ensures run { IsOfRun N.ledger result }
    {
        let LedgerPass { pass, of: _ } = self;
        pass
    }
}
