// Room for an entry, and the deaths and joins that are due.
ghost use Rattle.std.specs.Prelude.{◌≡◌, ◌<◌, ◌-◌, ◌^◌, length, IfOk, OnOk, IfSome, IfNone};
ghost use Rattle.rx_rules.specs.declared.entries.Entry.TheVariants.{Death, Join};
ghost use Rattle.rx_kills.specs.Least.{entry_of};
ghost use Rattle.rx_chronicle.specs.Requests.{with_entry, HasDue, Calm};

use crate::chronicle::Chronicle;
use rx_base::{NoMemory, PlaceId};
use rx_finish::FinishLedger;
use rx_kills::Due;
use rx_rules::Entry;

impl<L: FinishLedger> Chronicle<L> {
    /// Takes room for one entry, and gives its number. That the numbers of 32 bits are used up counts as out of memory.
    pub fn room(&mut self) -> Result<u32, NoMemory>
        ensures told { (self.new.entries ≡ self.old.entries) × (self.new.setup ≡ self.old.setup) }
        ensures number { IfOk result (λ n. (n ≡ length self.new.entries) × (n < 2 ^ 32 - 1)) }
        ensures room { OnOk result (0 < self.new.spare) }
    {
        self.history.reserve(1)?;
        match u32::try_from(self.history.len()) {
            Ok(number) if number < u32::MAX => Ok(number),
            _ => Err(NoMemory),
        }
    }

    /// The death or the join that is due where the history has so many entries. None is due once the root is released. It takes no
    /// memory.
    pub fn due(&self, at: u32) -> Option<Due>
        requires { at ≡ length self.now.entries }
        ensures due { IfSome result (λ due. HasDue self.now (entry_of due)) }
        ensures none { IfNone result (Calm self.now) }
    {
        if self.ended {
            return None;
        }
        self.plan.due(at)
    }

    /// Makes what is due. It takes no memory.
    pub fn pass(&mut self, due: Due, at: u32)
        requires room { 0 < self.old.spare }
        requires number { at ≡ length self.old.entries }
        requires due { HasDue self.old (entry_of due) }
        ensures { self.new ≡ with_entry self.old (entry_of due) }
    {
        match due {
            Due::Death(place) => self.die(place, at),
            Due::Join(place) => self.join(place),
        }
    }

    /// Makes the death of a place that is due.
    fn die(&mut self, place: PlaceId, at: u32)
        requires room { 0 < self.old.spare }
        requires number { at ≡ length self.old.entries }
        requires due { HasDue self.old (Death place) }
        ensures { self.new ≡ with_entry self.old (Death place) }
    {
        rx_tree_laws::dead_are_as_told();
        self.ledger.death(place, at);
        self.history.add(Entry::Death { place });
        self.plan.done();
        self.dead = self.dead.with(place);
    }

    /// Makes the join of a place that is due.
    fn join(&mut self, place: PlaceId)
        requires room { 0 < self.old.spare }
        requires due { HasDue self.old (Join place) }
        ensures { self.new ≡ with_entry self.old (Join place) }
    {
        self.ledger.join(place);
        self.history.add(Entry::Join { place });
        self.plan.done();
    }
}
