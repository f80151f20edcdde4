// The plain ledger.
ghost use Rattle.std.specs.Prelude.{◌≡◌, ◌≤◌, ◌&&◌, ℕ, is_none, find, option_map, length, IfOk};
ghost use Rattle.rx_rules.specs.Tree.{Tree, is_under, quiet};
ghost use Rattle.rx_rules.specs.Entries.{thrown_of};
ghost use Rattle.rx_rules.specs.Fold.{opening};
ghost use Rattle.rx_finish.specs.Calls.{blow_of, landing};
ghost use Rattle.rx_tree.specs.Kept.{kept, Narrow};
ghost use Rattle.rx_tree.specs.Inside.Positions.{RowsInOrder};
ghost use Rattle.rx_tree.specs.Inside.Removal.{LeaveReply};

use crate::changes::{
    blow_at, insert_both, insert_scope, insert_task, land, lost_by, note_body, note_ends,
    remove_task, set_waits, strike_all,
};
use crate::lookups::{death_at, find_gone, find_governing, find_task, reaches, scope_row};
use crate::removal::{
    keep_gone, lost_places, masked_faults, remove_lost, remove_scopes, scopes_under,
};
use rx_base::{Faults, NoMemory, PlaceId, ScopeId, TaskId};
use rx_finish::{Born, Caller, FinishLedger, LedgerFault, Outcome, landing_of, place_of, travel};
use rx_rules::{Blow, Kind, Scope, Task, Where};
use std::alloc::Global;

/// The plain ledger: it keeps the tree itself, the newest rows first, in which it searches by number. It stands for the tree
/// that it keeps, and takes no memory for a place, so that it has room for any number of places.
#[derive(Drop)]
pub struct TreeLedger {
    alloc: Global,
    tasks: Vec<Task>,
    scopes: Vec<Scope>,
    gone: Vec<Task>,
    places: u8,
    dead: [Option<u32>; 16],
    next_task: u32,
    next_scope: u32,
}

impl TreeLedger {
    /// Opens a ledger of 1 to 16 places. It stands for the tree before the first entry: task 0 at place 0 under the root.
    pub fn open(alloc: Global, places: u8) -> Result<TreeLedger, NoMemory>
        requires { (1 ≤ places) × (places ≤ 16) }
        ensures { IfOk result (λ l. (room : ℕ) → ⟦<TreeLedger as FinishLedger>⟧.stands l room (opening places)) }
    {
        let mut tasks = Vec::new(alloc);
        let mut scopes = Vec::new(alloc);
        let task = Task {
            number: TaskId(0),
            under: ScopeId(0),
            place: Where::At(PlaceId(0)),
            waits: false,
            struck: None,
        };
        let scope = Scope {
            number: ScopeId(0),
            kind: Kind::Finish,
            opener: None,
            home: PlaceId(0),
            parent: None,
            body: Faults::open(alloc),
            ends: Faults::open(alloc),
        };
        tasks.push(task)?;
        scopes.push(scope)?;
        Ok(TreeLedger {
            alloc,
            tasks,
            scopes,
            gone: Vec::new(alloc),
            places,
            dead: [None; 16],
            next_task: 1,
            next_scope: 1,
        })
    }

    /// Whether no unstruck task is under the scope. A plain body: it goes up the scopes for each unstruck task.
    fn is_quiet(&self, s: ScopeId) -> bool
        requires { RowsInOrder (kept self.now) }
        ensures { result ≡ quiet (kept self.now) s }
    {
        for x in &self.tasks {
            if x.struck.is_none() && reaches(&self.scopes, x.under, s) {
                return false;
            }
        }
        true
    }

    /// Where an unstruck task under the scope is or goes, if there is one. A plain body, as that of `is_quiet`.
    fn hindrance(&self, s: ScopeId) -> Option<PlaceId>
        requires { RowsInOrder (kept self.now) }
        ensures { result ≡ option_map (λ x. landing x.place)
            (find (λ x. is_under (kept self.now) s x && is_none x.struck) self.now.tasks.items) }
    {
        for x in &self.tasks {
            if x.struck.is_none() && reaches(&self.scopes, x.under, s) {
                return Some(landing_of(x.place));
            }
        }
        None
    }

    /// The faults of the scope's body and then of the tasks that ended in it.
    fn thrown_in(&self, s: ScopeId) -> Result<Faults, NoMemory>
        requires { RowsInOrder (kept self.now) }
        ensures { IfOk result (λ f. f ≡ thrown_of (kept self.now) s) }
    {
        match scope_row(&self.scopes, s) {
            Some(i) => {
                let g = &self.scopes[i];
                g.body.joined(self.alloc, &g.ends)
            }
            None => Ok(Faults::open(self.alloc)),
        }
    }

    /// Releases the scope where nothing hinders it: what is below it leaves with it.
    fn leave(&mut self, s: ScopeId) -> Result<Outcome, LedgerFault>
        requires { RowsInOrder (kept self.old) × (length self.old.dead ≡ 16) }
        ensures { LeaveReply (kept self.old) s result (kept self.new) }
    {
        if let Some(place) = self.hindrance(s) {
            return Err(LedgerFault::NotYet { place });
        }
        let thrown = match self.thrown_in(s) {
            Ok(thrown) => thrown,
            Err(_) => return Err(LedgerFault::NoMemory),
        };
        let inside = match scopes_under(&self.scopes, s, self.alloc) {
            Ok(inside) => inside,
            Err(_) => return Err(LedgerFault::NoMemory),
        };
        let lost = lost_places(&self.tasks, &inside);
        let masked = masked_faults(&self.scopes, &inside, s);
        match keep_gone(&self.tasks, &inside, &mut self.gone) {
            Ok(_) => {}
            Err(_) => return Err(LedgerFault::NoMemory),
        }
        remove_lost(&mut self.tasks, &inside);
        remove_scopes(&mut self.scopes, &inside);
        Ok(Outcome {
            lost,
            masked,
            thrown,
        })
    }

    /// The death that struck the task, if one did.
    fn blow(&self, t: TaskId) -> Option<Blow>
        requires { RowsInOrder (kept self.now) }
        ensures { result ≡ blow_of (kept self.now) t }
    {
        match find_task(&self.tasks, t) {
            Some(x) => x.struck,
            None => match find_gone(&self.gone, t) {
                Some(x) => x.struck,
                None => None,
            },
        }
    }
}

impl FinishLedger for TreeLedger {
    ghost stands = { λ l room T. (kept l ≡ T) × Narrow T };

    fn open_finish(&mut self, who: Caller) -> Result<ScopeId, LedgerFault> {
        rx_tree_laws::reached_is_sound();
        if let Some(blow) = self.blow(who.task) {
            return Err(lost_by(blow));
        }
        let number = ScopeId(self.next_scope);
        let scope = Scope {
            number,
            kind: Kind::Finish,
            opener: Some(who.task),
            home: place_of(who.place),
            parent: Some(who.inner),
            body: Faults::open(self.alloc),
            ends: Faults::open(self.alloc),
        };
        insert_scope(&mut self.scopes, scope)?;
        self.next_scope += 1;
        Ok(number)
    }

    fn spawn(&mut self, who: Caller, to: PlaceId) -> Result<Born, LedgerFault> {
        rx_tree_laws::reached_is_sound();
        if let Some(blow) = self.blow(who.task) {
            return Err(lost_by(blow));
        }
        let scope = find_governing(&self.scopes, who.inner);
        let from = place_of(who.place);
        let struck = blow_at(to, death_at(&self.dead, to));
        let child = TaskId(self.next_task);
        let task = Task {
            number: child,
            under: scope,
            place: travel(from, to),
            waits: false,
            struck,
        };
        insert_task(&mut self.tasks, task)?;
        self.next_task += 1;
        Ok(Born {
            child,
            scope,
            lost: struck.is_some(),
        })
    }

    fn open_at(&mut self, who: Caller, to: PlaceId) -> Result<Born, LedgerFault> {
        rx_tree_laws::reached_is_sound();
        if let Some(blow) = self.blow(who.task) {
            return Err(lost_by(blow));
        }
        let from = place_of(who.place);
        let struck = blow_at(to, death_at(&self.dead, to));
        let scope = ScopeId(self.next_scope);
        let child = TaskId(self.next_task);
        let row = Scope {
            number: scope,
            kind: Kind::Call,
            opener: Some(who.task),
            home: from,
            parent: Some(who.inner),
            body: Faults::open(self.alloc),
            ends: Faults::open(self.alloc),
        };
        let task = Task {
            number: child,
            under: scope,
            place: travel(from, to),
            waits: false,
            struck,
        };
        insert_both(&mut self.scopes, &mut self.tasks, row, task)?;
        set_waits(&mut self.tasks, who.task, true);
        self.next_scope += 1;
        self.next_task += 1;
        Ok(Born {
            child,
            scope,
            lost: struck.is_some(),
        })
    }

    fn arrive(&mut self, who: Caller) -> Result<(), LedgerFault> {
        rx_tree_laws::reached_is_sound();
        if let Some(blow) = self.blow(who.task) {
            return Err(lost_by(blow));
        }
        land(&mut self.tasks, who.task, landing_of(who.place));
        Ok(())
    }

    fn wait(&mut self, who: Caller, thrown: Faults) -> Result<(), (LedgerFault, Faults)> {
        rx_tree_laws::reached_is_sound();
        if let Some(blow) = self.blow(who.task) {
            return Err((lost_by(blow), thrown));
        }
        note_body(&mut self.scopes, who.inner, thrown);
        set_waits(&mut self.tasks, who.task, true);
        Ok(())
    }

    fn release(&mut self, who: Caller) -> Result<Outcome, LedgerFault> {
        rx_tree_laws::reached_is_sound();
        if let Some(blow) = self.blow(who.task) {
            return Err(lost_by(blow));
        }
        let outcome = self.leave(who.inner)?;
        set_waits(&mut self.tasks, who.task, false);
        Ok(outcome)
    }

    fn end(&mut self, who: Caller, thrown: Faults) -> Result<(), (LedgerFault, Faults)> {
        rx_tree_laws::reached_is_sound();
        if let Some(blow) = self.blow(who.task) {
            return Err((lost_by(blow), thrown));
        }
        if let Err(back) = note_ends(&mut self.scopes, who.scope, thrown) {
            return Err((LedgerFault::NoMemory, back));
        }
        remove_task(&mut self.tasks, who.task);
        Ok(())
    }

    fn print(&self, who: Caller) -> Result<(), LedgerFault> {
        rx_tree_laws::reached_is_sound();
        match self.blow(who.task) {
            Some(blow) => Err(lost_by(blow)),
            None => Ok(()),
        }
    }

    fn census(&self, who: Caller) -> Result<u8, LedgerFault> {
        rx_tree_laws::reached_is_sound();
        match self.blow(who.task) {
            Some(blow) => Err(lost_by(blow)),
            None => Ok(self.places),
        }
    }

    fn release_root(&mut self) -> Result<Outcome, LedgerFault> {
        rx_tree_laws::reached_is_sound();
        self.leave(ScopeId(0))
    }

    fn ready(&self, who: Caller) -> bool {
        rx_tree_laws::reached_is_sound();
        self.blow(who.task).is_none() && self.is_quiet(who.inner)
    }

    fn death(&mut self, place: PlaceId, at: u32) {
        let blow = Blow { place, entry: at };
        strike_all(&mut self.tasks, blow);
        self.dead[place.0 as usize] = Some(at);
    }

    fn join(&mut self, place: PlaceId) {
        self.places = place.0 + 1;
    }
}
