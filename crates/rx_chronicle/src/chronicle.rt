// A ledger with the history of what it has granted.
ghost use Rattle.std.specs.Prelude.{◌≡◌, [], length, IfOk, IfErr};
ghost use Rattle.rx_rules.specs.Fold.{opening};
ghost use Rattle.rx_rules.specs.Run.{Proper};
ghost use Rattle.rx_finish.specs.Callers.{MayAskRelease};
ghost use Rattle.rx_finish.specs.Calls.{is_ready};
ghost use Rattle.rx_history.specs.Setups.{given, to_join};
ghost use Rattle.rx_chronicle.specs.Told.{opener_told, parent_told, HasDead};
ghost use Rattle.rx_chronicle.specs.Requests.{tree_told, ChronicleInvariant};

use crate::notes::Note;
use rx_base::{NoMemory, PlaceSet, ScopeId, TaskId};
use rx_finish::{Caller, FinishLedger};
use rx_history::{History, Setup};
use rx_kills::Kills;
use std::alloc::Global;
use std::marker::Model;

/// A ledger with the history of what it has granted, the deaths and joins that are not done, and a note of each scope. Contracts see
/// it as its history. Its ledger stands for the tree to which that folds.
#[derive(Drop)]
pub struct Chronicle<L: FinishLedger> {
    pub(crate) ledger: L,
    pub(crate) history: History,
    /// The deaths and joins that are not done.
    pub(crate) plan: Kills,
    /// The places whose deaths stand in the history.
    pub(crate) dead: PlaceSet,
    /// A note for each scope, by its number.
    pub(crate) notes: Vec<Note>,
    /// Whether the root is released.
    pub(crate) ended: bool,
    pub(crate) alloc: Global,
}

impl<L: FinishLedger> Model for Chronicle<L> {
    ghost use Rattle.rx_history.specs.Logs.{Log};
    ghost use Rattle.rx_history.specs.Setups.{given};
    ghost use Rattle.rx_chronicle.specs.Keeping.{Keeps};

    ghost Value = { Log };

    ghost view = { λ c. c.history };

    ghost invariant = { λ c. Keeps L.stands c.history c.ledger c.plan c.dead c.ended c.notes.items };
}

impl<L: FinishLedger> Chronicle<L> {
    /// A chronicle without entries, over an opened ledger with room for the joins. A refusal hands the ledger back.
    pub fn open(alloc: Global, ledger: L, setup: Setup) -> Result<Chronicle<L>, (L, NoMemory)>
        requires proper { Proper (given setup) }
        requires opened { L.stands ledger (length setup.joins) (opening setup.places) }
        ensures empty { IfOk result (λ c. c ≡ record { setup = setup; entries = []; spare = 0 }) }
        ensures refused { IfErr result (λ r. r.0 ≡ ledger) }
    {
        let mut notes = Vec::new(alloc);
        if notes.reserve(1).is_err() {
            return Err((ledger, NoMemory));
        }
        notes.push_reserved(Note {
            opener: TaskId(0),
            parent: ScopeId(0),
            faults: 0,
        });
        let Ok(plan) = Kills::open(alloc, &setup.kills, &setup.joins, setup.places) else {
            return Err((ledger, NoMemory));
        };
        Ok(Chronicle {
            ledger,
            history: History::open(alloc, setup),
            plan,
            dead: PlaceSet(0),
            notes,
            ended: false,
            alloc,
        })
    }

    /// The history. It takes no memory.
    pub fn history(&self) -> &History
        ensures { result.now ≡ self.now }
    {
        &self.history
    }

    /// The ledger, which stands for the tree to which the history folds. It takes no memory.
    pub fn ledger(&self) -> &L
        ensures { L.stands result.now (to_join (given self.now.setup) (tree_told self.now)) (tree_told self.now) }
    {
        &self.ledger
    }

    /// The history, and the ledger, which stands for the tree to which it folds. It takes no memory.
    pub fn into_parts(self) -> (History, L)
        ensures history { result.0 ≡ self }
        ensures ledger { L.stands result.1 (to_join (given self.setup) (tree_told self)) (tree_told self) }
    {
        (self.history, self.ledger)
    }

    /// The places whose deaths stand in the history. It takes no memory.
    pub fn deaths(&self) -> PlaceSet
        ensures { HasDead result self.now.entries }
    {
        self.dead
    }

    /// Who opened a scope, and inside which, as the history tells it. It takes no memory.
    pub fn note(&self, s: ScopeId) -> Note
        ensures opener { result.opener ≡ opener_told self.now.entries s }
        ensures parent { result.parent ≡ parent_told self.now.entries s }
    {
        match self.notes.get(s.0 as usize) {
            Some(note) => *note,
            None => Note {
                opener: TaskId(0),
                parent: ScopeId(0),
                faults: 0,
            },
        }
    }

    /// Whether the caller is unstruck and no unstruck task is under its innermost scope. It takes no memory.
    pub fn ready(&self, who: Caller) -> bool
        requires { MayAskRelease (tree_told self.now) who }
        ensures { result ≡ is_ready (tree_told self.now) who }
    {
        self.ledger.ready(who)
    }

    /// A law of contracts: the history of every chronicle is what a ledger can know, and nothing follows the root's release.
    pub fn is_lawful(&self)
        ensures { ChronicleInvariant self.now }
    {
        let _ended = self.ended;
    }
}
