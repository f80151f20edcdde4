// Which tasks are enabled, and whom the end of a task may free.
ghost use Rattle.std.specs.Prelude.{◌≡◌, ◌<◌, ◌≤◌, ℕ, true, length, Some, None, IfSome};
ghost use Rattle.rx_rules.specs.Code.{Block};
ghost use Rattle.rx_rules.specs.Tree.{on_chain, the_root};
ghost use Rattle.rx_rules.specs.Run.{Given};
ghost use Rattle.rx_rules.specs.Picked.{Game, enabled, tree_in};
ghost use Rattle.rx_rank.specs.Numbers.{Ascends, marked};
ghost use Rattle.rx_tree_laws.specs.Enabling.{nearest_opener as nearest};
ghost use Rattle.rx_syntax.specs.Shape.{Shape};
ghost use Rattle.rx_machine.specs.Slots.{seat_at};
ghost use Rattle.rx_machine.specs.Holds.{MachineInvariant, CanTurn, Finished};
ghost use Rattle.rx_machine.specs.Inside.Games.{SomeTurning, EachTurning, SomeMoved, EachNoted};
ghost use Rattle.rx_machine.specs.Refusals.{HasFailed};
ghost use Rattle.rx_machine.specs.Picking.{slot_able, is_listed};

use crate::machine::Machine;
use rx_base::{ScopeId, TaskId};
use rx_finish::FinishLedger;

impl<L: FinishLedger> Machine<L> {
    /// Whether the task of a slot is enabled.
    pub(crate) fn is_able(&self, i: usize) -> bool
        requires inside { i < length self.now.seats.items }
        requires game { SomeTurning self.now }
        ensures { EachTurning self.now (λ U G. result ≡ slot_able (tree_in U G) (seat_at self.now.seats.items i)) }
    {
        rx_tree_laws::waiter_has_scope();
        match &self.seats[i] {
            None => false,
            Some(seat) => !seat.waits || self.chronicle.ready(seat.who),
        }
    }

    /// How many tasks are enabled in the tree to which the history folds. It may be asked at any time: after the end of the run it
    /// is 0, and after a refused turn it is what it was before that turn. It takes no memory.
    pub fn enabled(&self) -> u32
        ensures holds { (shape : Shape) (code : Block) (U : Given) (G : Game) → MachineInvariant shape code U self.now G
            → result ≡ length (enabled (tree_in U G)) }
        ensures finished { (U : Given) (G : Game) → Finished U self.now G → result ≡ length (enabled (tree_in U G)) }
        ensures refused { (U : Given) (k : ℕ) (G : Game) → HasFailed U k self.now G → result ≡ length (enabled (tree_in U G)) }
    {
        rx_runs::games_come();
        rx_tree_laws::fold_is_reached();
        rx_tree_laws::reached_is_sound();
        self.ready.len()
    }

    /// Notes which tasks are enabled after the turn of a task, which hung under that scope; before it there were so many slots. It asks
    /// of that task, and of one that it started, or where it has ended of the one that this may free.
    pub(crate) fn note_tasks(&mut self, i: usize, under: ScopeId, before: usize)
        requires room { length self.old.seats.items ≤ self.old.ready.room }
        requires inside { i < length self.old.seats.items }
        requires game { SomeMoved self.old i under before }
        ensures same { self.new ≡ record self.old { ready = self.new.ready } }
        ensures ready { EachNoted self.old self.new i under before }
    {
        rx_tree_laws::reached_is_sound();
        rx_tree_laws::others_stay_enabled();
        if self.seats[i].is_none() {
            self.note_end(i, under);
            return;
        }
        self.note(i);
        if before < self.seats.len() {
            self.note(before);
        }
    }

    /// Notes which tasks are enabled after the end of a task: not that one, and of the others at most the nearest opener above it
    /// is another.
    fn note_end(&mut self, i: usize, under: ScopeId)
        requires room { length self.old.seats.items ≤ self.old.ready.room }
        requires inside { i < length self.old.seats.items }
        requires ended { seat_at self.old.seats.items i ≡ None }
        requires game { (before : ℕ) × SomeMoved self.old i under before }
        ensures same { self.new ≡ record self.old { ready = self.new.ready } }
        ensures ready { (before : ℕ) → EachNoted self.old self.new i under before }
    {
        rx_tree_laws::reached_is_sound();
        rx_tree_laws::end_frees_one();
        rx_tree_laws::way_up_stays();
        self.note(i);
        match self.nearest_opener(under) {
            Some(opener) => self.note(opener.0 as usize),
            None => {}
        }
    }

    /// Of the scopes from this one along parents, the first whose opener's seat is there tells it.
    fn nearest_opener(&self, under: ScopeId) -> Option<TaskId>
        requires game { (shape : Shape) × (code : Block) × (U : Given) × (G : Game) × CanTurn shape code U self.now G
            × (on_chain (tree_in U G) the_root under ≡ true) }
        ensures inside { IfSome result (λ o. o.0 < length self.now.seats.items) }
        ensures nearest { EachTurning self.now (λ U G. on_chain (tree_in U G) the_root under ≡ true
            → result ≡ nearest (tree_in U G) (Some under)) }
    {
        rx_runs::games_come();
        rx_tree_laws::walk_goes_up();
        rx_tree_laws::walk_ends_at_root();
        rx_chronicle::laws::notes_tell();
        let mut scope = under;
        'scopes: while scope.0 != 0 {
            let note = self.chronicle.note(scope);
            if self.seats[note.opener.0 as usize].is_some() {
                return Some(note.opener);
            }
            scope = note.parent;
        }
        None
    }

    /// Notes of each task whether it is enabled. It asks of every slot.
    pub(crate) fn note_all(&mut self)
        requires room { length self.old.seats.items ≤ self.old.ready.room }
        requires game { SomeTurning self.old }
        ensures same { self.new ≡ record self.old { ready = self.new.ready } }
        ensures ascends { Ascends 0 self.old.ready.members → Ascends 0 self.new.ready.members }
        ensures noted { EachTurning self.old (λ U G. (n : ℕ) → n < length self.old.seats.items
            → is_listed n self.new.ready.members ≡ slot_able (tree_in U G) (seat_at self.old.seats.items n)) }
        ensures others { (n : ℕ) → length self.old.seats.items ≤ n
            → is_listed n self.new.ready.members ≡ is_listed n self.old.ready.members }
    {
        for i in 0..self.seats.len() {
            self.note(i);
        }
    }

    /// Notes whether the task of a slot is enabled.
    fn note(&mut self, i: usize)
        requires room { i < self.old.ready.room }
        requires inside { i < length self.old.seats.items }
        requires game { SomeTurning self.old }
        ensures same { self.new ≡ record self.old { ready = self.new.ready } }
        ensures room { self.new.ready.room ≡ self.old.ready.room }
        ensures members { EachTurning self.old (λ U G. self.new.ready.members
            ≡ marked (slot_able (tree_in U G) (seat_at self.old.seats.items i)) i self.old.ready.members) }
    {
        let able = self.is_able(i);
        self.ready.set(i as u32, able);
    }
}
