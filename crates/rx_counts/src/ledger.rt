// The ledger.
ghost use Rattle.std.specs.Prelude.{◌≡◌, ℕ, ◌+◌, ◌≤◌, ◌<◌, IfOk, IfSome, is_some, true, Err, option_map};
ghost use Rattle.rx_rules.specs.Tree.{Tree, scope_of, death_of};
ghost use Rattle.rx_rules.specs.Fold.{opening};
ghost use Rattle.rx_base.specs.Sets.{members};
ghost use Rattle.rx_rules.specs.Counts.{live_count, transit_count, lost_at, adopter};
ghost use Rattle.rx_finish.specs.Callers.{MayAskTo};
ghost use Rattle.rx_finish.specs.Calls.{SpawnReply};
ghost use Rattle.rx_finish.specs.Totals.{totals_of};
ghost use Rattle.rx_counts.specs.Stands.{StandsFor, HasScope};
ghost use Rattle.rx_counts.specs.Meaning.{CountsStand};
ghost use Rattle.rx_counts.specs.Seen.{seen};
ghost use Rattle.rx_counts.specs.Inside.Freeing.{IsLast, OutcomeReply, FreeReply};

use crate::dying::{hand_over_all, strike_all};
use crate::pages::Pages;
use crate::places::{blow_there, lives, lost};
use crate::record::fresh;
use crate::removal::{hindrance, remove};
use crate::table::{
    bear, count_at, dropped_by, finish_of, join, keeper_of, leave, look, mask, note_body,
    note_ends, push,
};
use crate::totals::{died, freed, started};
use rx_base::{Faults, NoMemory, PlaceId, PlaceSet, ScopeId, TaskId};
use rx_finish::{
    Born, Caller, FinishLedger, LedgerFault, Outcome, Totals, landing_of, place_of, travel,
};
use rx_rules::{Kind, Where};
use std::alloc::Global;

/// What a scope is, for whoever asks the ledger.
#[derive(Clone, Copy)]
pub struct ScopeSeen {
    pub kind: Kind,
    /// The scope under which it was opened. The root has none.
    pub parent: Option<ScopeId>,
}

/// A ledger that keeps counts and no task: the records of the scopes that stand, by number.
#[derive(Drop)]
pub struct CountLedger {
    alloc: Global,
    scopes: Pages,
    places: u8,
    /// How many places it has columns for: those that there are or may join.
    width: u8,
    dead: [Option<u32>; 16],
    next_task: u32,
    next_scope: u32,
    /// Of the tree: each call changes them as it changes the tree.
    totals: Totals,
}

impl CountLedger {
    /// Opens a ledger of 1 to 16 places, with room for more of them up to 16. It stands for the tree before the first entry: task 0 at
    /// place 0 under the root.
    pub fn open(alloc: Global, places: u8) -> Result<CountLedger, NoMemory>
        requires { (1 ≤ places) × (places ≤ 16) }
        ensures { IfOk result (λ l. (room : ℕ) → room + places ≤ 16 → ⟦<CountLedger as FinishLedger>⟧.stands l room (opening places)) }
    {
        CountLedger::open_wide(alloc, places, 16)
    }

    /// The same with room for so many places more.
    pub fn open_for(alloc: Global, places: u8, joins: u8) -> Result<CountLedger, NoMemory>
        requires { (1 ≤ places) × (places + joins ≤ 16) }
        ensures { IfOk result (λ l. ⟦<CountLedger as FinishLedger>⟧.stands l joins (opening places)) }
    {
        CountLedger::open_wide(alloc, places, places + joins)
    }

    /// Opens a ledger of so many places, with columns for so many.
    fn open_wide(alloc: Global, places: u8, width: u8) -> Result<CountLedger, NoMemory>
        requires { (1 ≤ places) × (places ≤ width) × (width ≤ 16) }
        ensures { IfOk result (λ l. (room : ℕ) → room + places ≤ width → StandsFor l room (opening places)) }
    {
        let mut scopes = Pages::new(alloc);
        let mut root = fresh(alloc, width, Kind::Finish, PlaceId(0), None, ScopeId(0))?;
        root.sums.join(Where::At(PlaceId(0)));
        match push(&mut scopes, root, alloc) {
            Ok(_) => {}
            Err(_) => return Err(NoMemory),
        }
        Ok(CountLedger {
            alloc,
            scopes,
            places,
            width,
            dead: [None; 16],
            next_task: 1,
            next_scope: 1,
            totals: Totals {
                scopes: 1,
                live: 1,
                travel: 0,
            },
        })
    }

    /// How many unstruck tasks at a place are counted at a scope.
    pub fn live_at(&self, s: ScopeId, p: PlaceId) -> u32
        requires { (room : ℕ) × (T : Tree) × StandsFor self.now room T × HasScope T s × (p.0 < 16) }
        ensures { (room : ℕ) (T : Tree) → StandsFor self.now room T → HasScope T s → result ≡ live_count T s p }
    {
        count_at(&self.scopes, s, Where::At(p))
    }

    /// How many unstruck tasks that travel from one place to another are counted at a scope.
    pub fn transit_of(&self, s: ScopeId, from: PlaceId, to: PlaceId) -> u32
        requires { (room : ℕ) × (T : Tree) × StandsFor self.now room T × HasScope T s × (from.0 < 16) × (to.0 < 16) }
        ensures { (room : ℕ) (T : Tree) → StandsFor self.now room T → HasScope T s → result ≡ transit_count T s from to }
    {
        count_at(&self.scopes, s, Where::Travel { from, to })
    }

    /// The places at which tasks that are counted at a scope were lost.
    pub fn lost_of(&self, s: ScopeId) -> PlaceSet
        requires { (room : ℕ) × (T : Tree) × StandsFor self.now room T × HasScope T s }
        ensures { (room : ℕ) (T : Tree) → StandsFor self.now room T → HasScope T s → members result ≡ lost_at T s }
    {
        match look(&self.scopes, s) {
            Some(kept) => kept.sums.lost,
            None => PlaceSet::empty(),
        }
    }

    /// The nearest scope with a living home, from the scope itself along parents.
    pub fn adopter_of(&self, s: ScopeId) -> ScopeId
        requires { (room : ℕ) × (T : Tree) × StandsFor self.now room T × HasScope T s }
        ensures { (room : ℕ) (T : Tree) → StandsFor self.now room T → HasScope T s
            → IfSome (adopter T s) (λ g. result ≡ g.number) × (is_some (adopter T s) ≡ true) }
    {
        match keeper_of(&self.scopes, &self.dead, s) {
            Some(keeper) => keeper,
            None => s,
        }
    }

    /// What a scope is, while it stands.
    pub fn scope_seen(&self, s: ScopeId) -> Option<ScopeSeen>
        requires { (room : ℕ) × (T : Tree) × StandsFor self.now room T }
        ensures { (room : ℕ) (T : Tree) → StandsFor self.now room T → result ≡ option_map seen (scope_of T s) }
    {
        match look(&self.scopes, s) {
            Some(kept) => Some(ScopeSeen {
                kind: kept.kind,
                parent: kept.parent,
            }),
            None => None,
        }
    }

    /// The number that the next task gets.
    pub fn next_task(&self) -> u32
        ensures { (room : ℕ) (T : Tree) → StandsFor self.now room T → result ≡ T.next_task }
    {
        self.next_task
    }

    /// The number that the next scope gets.
    pub fn next_scope(&self) -> u32
        ensures { (room : ℕ) (T : Tree) → StandsFor self.now room T → result ≡ T.next_scope }
    {
        self.next_scope
    }

    /// How many places there are, dead ones among them.
    pub fn places(&self) -> u8
        ensures { (room : ℕ) (T : Tree) → StandsFor self.now room T → result ≡ T.places }
    {
        self.places
    }

    /// Whether a place is dead.
    pub fn has_died(&self, place: PlaceId) -> bool
        ensures { (room : ℕ) (T : Tree) → StandsFor self.now room T → result ≡ is_some (death_of T place) }
    {
        matches!(self.dead.get(place.0 as usize), Some(Some(_)))
    }

    /// How many scopes are not released, and how many unstruck tasks are at a place and travel. It takes no memory, and looks at
    /// no scope and no task.
    pub fn totals(&self) -> Totals
        ensures { (room : ℕ) (T : Tree) → ⟦<CountLedger as FinishLedger>⟧.stands self.now room T → result ≡ totals_of T }
    {
        self.totals
    }

    /// The scope that counts the tasks which hang under a scope, and its home, where it counts none just now. A hint: no contract
    /// speaks of it. It takes no memory, and looks at one scope for each with a dead home on the way.
    pub fn quiet(&self, s: ScopeId) -> Option<(ScopeId, PlaceId)> {
        let at = keeper_of(&self.scopes, &self.dead, s)?;
        match look(&self.scopes, at) {
            Some(kept) if kept.sums.total == 0 => Some((at, kept.home)),
            _ => None,
        }
    }

    /// What the release of a scope names, and how many scopes go with it.
    fn outcome_of(&self, s: ScopeId) -> Result<(Outcome, u32), LedgerFault>
        requires { (room : ℕ) × (T : Tree) × StandsFor self.now room T × IsLast T s }
        ensures { (room : ℕ) (T : Tree) → StandsFor self.now room T → IsLast T s → OutcomeReply T s result }
    {
        match look(&self.scopes, s) {
            None => Err(LedgerFault::NoMemory),
            Some(kept) => {
                if kept.sums.total > 0 {
                    return Err(LedgerFault::NotYet {
                        place: hindrance(&kept.sums.counts, kept.sums.places),
                    });
                }
                match kept.body.joined(self.alloc, &kept.ends) {
                    Ok(thrown) => Ok((
                        Outcome {
                            lost: kept.sums.lost,
                            masked: kept.sums.masked,
                            thrown,
                        },
                        kept.sums.orphans,
                    )),
                    Err(_) => Err(LedgerFault::NoMemory),
                }
            }
        }
    }

    /// Releases a scope where its counts are 0: what is below it leaves with it.
    fn free(&mut self, s: ScopeId) -> Result<Outcome, LedgerFault>
        requires { (room : ℕ) × (T : Tree) × StandsFor self.old room T × IsLast T s }
        ensures { (room : ℕ) (T : Tree) → StandsFor self.old room T → IsLast T s → FreeReply room T s result self.new }
    {
        match self.outcome_of(s) {
            Err(fault) => Err(fault),
            Ok((outcome, orphans)) => {
                remove(&mut self.scopes, s, orphans);
                self.totals = freed(self.totals, orphans);
                Ok(outcome)
            }
        }
    }
}

impl FinishLedger for CountLedger {
    ghost stands = { λ l room T. StandsFor l room T };

    fn open_finish(&mut self, who: Caller) -> Result<ScopeId, LedgerFault> {
        if let Some(blow) = blow_there(&self.dead, who.place) {
            return Err(lost(blow));
        }
        let number = ScopeId(self.next_scope);
        let home = place_of(who.place);
        let Ok(kept) = fresh(
            self.alloc,
            self.width,
            Kind::Finish,
            home,
            Some(who.inner),
            number,
        ) else {
            return Err(LedgerFault::NoMemory);
        };
        if let Err(fault) = push(&mut self.scopes, kept, self.alloc) {
            return Err(fault);
        }
        self.next_scope += 1;
        self.totals.scopes += 1;
        Ok(number)
    }

    fn open_at(&mut self, who: Caller, to: PlaceId) -> Result<Born, LedgerFault> {
        if let Some(blow) = blow_there(&self.dead, who.place) {
            return Err(lost(blow));
        }
        let scope = ScopeId(self.next_scope);
        let child = TaskId(self.next_task);
        let finish = finish_of(&self.scopes, who.inner);
        let from = place_of(who.place);
        let is_lost = !lives(&self.dead, to);
        let place = travel(from, to);
        let Ok(mut kept) = fresh(
            self.alloc,
            self.width,
            Kind::Call,
            from,
            Some(who.inner),
            finish,
        ) else {
            return Err(LedgerFault::NoMemory);
        };
        kept.sums.bear(is_lost, place, to);
        if let Err(fault) = push(&mut self.scopes, kept, self.alloc) {
            return Err(fault);
        }
        self.next_scope += 1;
        self.next_task += 1;
        self.totals.scopes += 1;
        self.totals = started(self.totals, is_lost, place);
        Ok(Born {
            child,
            scope,
            lost: is_lost,
        })
    }

    fn spawn(&mut self, who: Caller, to: PlaceId) -> Result<Born, LedgerFault>
        requires { (room : ℕ) × (T : Tree) × StandsFor self.old room T × MayAskTo T who to }
        ensures replies { (room : ℕ) (T : Tree) → StandsFor self.old room T → MayAskTo T who to
            → SpawnReply T who to result (StandsFor self.new room) }
        ensures takes_no_memory { result ≡ Err LedgerFault.NoMemory → ⊥ }
    {
        if let Some(blow) = blow_there(&self.dead, who.place) {
            return Err(lost(blow));
        }
        let child = TaskId(self.next_task);
        let scope = finish_of(&self.scopes, who.inner);
        let from = place_of(who.place);
        let is_lost = !lives(&self.dead, to);
        let place = travel(from, to);
        let Some(keeper) = keeper_of(&self.scopes, &self.dead, scope) else {
            return Ok(Born {
                child,
                scope,
                lost: is_lost,
            });
        };
        bear(&mut self.scopes, keeper, is_lost, place, to);
        self.next_task += 1;
        self.totals = started(self.totals, is_lost, place);
        Ok(Born {
            child,
            scope,
            lost: is_lost,
        })
    }

    fn arrive(&mut self, who: Caller) -> Result<(), LedgerFault> {
        if let Some(blow) = blow_there(&self.dead, who.place) {
            return Err(lost(blow));
        }
        let Some(keeper) = keeper_of(&self.scopes, &self.dead, who.scope) else {
            return Ok(());
        };
        leave(&mut self.scopes, keeper, who.place);
        join(&mut self.scopes, keeper, Where::At(landing_of(who.place)));
        self.totals.live += 1;
        self.totals.travel -= 1;
        Ok(())
    }

    fn wait(&mut self, who: Caller, thrown: Faults) -> Result<(), (LedgerFault, Faults)> {
        if let Some(blow) = blow_there(&self.dead, who.place) {
            return Err((lost(blow), thrown));
        }
        note_body(&mut self.scopes, who.inner, thrown);
        Ok(())
    }

    fn ready(&self, who: Caller) -> bool {
        if blow_there(&self.dead, who.place).is_some() {
            return false;
        }
        match look(&self.scopes, who.inner) {
            Some(kept) => kept.sums.total == 0,
            None => false,
        }
    }

    fn release(&mut self, who: Caller) -> Result<Outcome, LedgerFault> {
        if let Some(blow) = blow_there(&self.dead, who.place) {
            return Err(lost(blow));
        }
        self.free(who.inner)
    }

    fn end(&mut self, who: Caller, thrown: Faults) -> Result<(), (LedgerFault, Faults)> {
        if let Some(blow) = blow_there(&self.dead, who.place) {
            return Err((lost(blow), thrown));
        }
        let Some(keeper) = keeper_of(&self.scopes, &self.dead, who.scope) else {
            return Ok(());
        };
        let keeps = keeper == who.scope;
        let dropped = dropped_by(keeps, &thrown);
        if let Err(back) = note_ends(&mut self.scopes, who.scope, keeps, thrown) {
            return Err((LedgerFault::NoMemory, back));
        }
        mask(&mut self.scopes, keeper, dropped);
        leave(&mut self.scopes, keeper, who.place);
        self.totals.live -= 1;
        Ok(())
    }

    fn print(&self, who: Caller) -> Result<(), LedgerFault> {
        match blow_there(&self.dead, who.place) {
            Some(blow) => Err(lost(blow)),
            None => Ok(()),
        }
    }

    fn census(&self, who: Caller) -> Result<u8, LedgerFault> {
        match blow_there(&self.dead, who.place) {
            Some(blow) => Err(lost(blow)),
            None => Ok(self.places),
        }
    }

    fn release_root(&mut self) -> Result<Outcome, LedgerFault> {
        self.free(ScopeId(0))
    }

    fn death(&mut self, place: PlaceId, at: u32) {
        let _tasks = self.next_task;
        let _scopes = self.next_scope;
        let toll = strike_all(&mut self.scopes, place);
        self.totals = died(self.totals, toll);
        self.dead[place.0 as usize] = Some(at);
        hand_over_all(&mut self.scopes, &self.dead, place, self.alloc);
    }

    fn join(&mut self, _place: PlaceId) {
        self.places += 1;
    }
}

/// A law: the ledger's relation to a tree says of each scope what the rules say of counts. It does nothing when it runs.
pub fn counts_stand()
    ensures { CountsStand }
{}
