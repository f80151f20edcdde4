// The turns of deaths and joins.
ghost use Rattle.std.specs.Prelude.{◌≡◌, ◌<◌, ◌≤◌, ℕ, false, length};
ghost use Rattle.rx_kills.specs.Least.{entry_of};
ghost use Rattle.rx_machine.specs.Slots.{is_struck as strikes, left_by, seat_at};
ghost use Rattle.rx_machine.specs.Runs.{WentOn};
ghost use Rattle.rx_machine.specs.Inside.Games.{SomeDue, EachDue};
ghost use Rattle.rx_chronicle.specs.Requests.{HasDue};

use crate::machine::Machine;
use crate::seat::Seat;
use rx_base::PlaceId;
use rx_finish::FinishLedger;
use rx_kills::Due;
use rx_rules::Where;

impl<L: FinishLedger> Machine<L> {
    /// Makes what is due. A death may free many tasks that wait, and asks of every slot: a run has at most 15 deaths. A join changes no
    /// task, and the stores have its store already. It takes no memory.
    pub(crate) fn pass(&mut self, due: Due, at: u32)
        requires room { 0 < self.old.chronicle.spare }
        requires slots { length self.old.seats.items ≤ self.old.ready.room }
        requires number { at ≡ length self.old.chronicle.entries }
        requires due { HasDue self.old.chronicle (entry_of due) }
        requires game { SomeDue self.old (entry_of due) }
        ensures { EachDue self.old (entry_of due) (λ shape code U k G. WentOn shape code U self.new k false G) }
    {
        rx_runs::games_come();
        rx_tree_laws::fold_is_reached();
        rx_tree_laws::reached_is_sound();
        self.chronicle.pass(due, at);
        match due {
            Due::Join(_) => {}
            Due::Death(place) => {
                self.stores.close(place, at);
                give_up(&mut self.seats, place);
                self.note_all();
            }
        }
    }
}

/// Gives up the seats of the tasks that a death strikes. It asks of every slot: a plain body, for a run has at most 15 deaths.
fn give_up(seats: &mut Vec<Option<Seat>>, place: PlaceId)
    ensures many { length seats.new.items ≡ length seats.old.items }
    ensures each { (n : ℕ) → seat_at seats.new.items n ≡ left_by place (seat_at seats.old.items n) }
{
    for i in 0..seats.len() {
        strike(&mut seats[i], place);
    }
}

/// Empties the slot of a task that a death strikes.
fn strike(slot: &mut Option<Seat>, place: PlaceId)
    ensures { slot.new ≡ left_by place slot.old }
{
    if is_struck(slot, place) {
        *slot = None;
    }
}

/// Whether a death strikes the task of a slot.
fn is_struck(slot: &Option<Seat>, place: PlaceId) -> bool
    ensures { result ≡ strikes place slot.now }
{
    match slot {
        Some(seat) => match seat.who.place {
            Where::At(p) => p == place,
            Where::Travel { from, to } => from == place || to == place,
        },
        None => false,
    }
}
