// Which joins and deaths are still to be done, and which of them is due.
ghost use Rattle.std.specs.Prelude.{◌≡◌, ◌∷◌, [], ◌+◌, ◌≤◌, ◌<◌, length, IfOk, IfSome, IfNone};
ghost use Rattle.rx_rules.specs.Run.{events, IsDue, NoneDue, rest_of};
ghost use Rattle.rx_kills.specs.Least.{entry_of, EventsAscend, IsLeastDue, NoneReached};
ghost use Rattle.rx_kills.specs.Inside.Front.{starts_with_join};

use crate::laws::{due_is_least, none_is_reached};
use rx_base::{NoMemory, PlaceId};
use rx_history::{JoinList, KillList, joins_never_fall, kills_ascend};
use std::alloc::Global;
use std::marker::Model;

/// What is due: that a place joins, or that one dies.
#[derive(Clone, Copy, Debug, PartialEq, Eq)]
pub enum Due {
    Join(PlaceId),
    Death(PlaceId),
}

/// The joins and the deaths of a run that are not done, in ascending order of their moments, joins before deaths at one moment, and
/// each of the two in ascending order of their places.
#[derive(Drop)]
pub struct Kills {
    kills: KillList,
    joins: JoinList,
    // The place that the first join makes that is not done.
    place: u8,
    // So many of the kills and of the joins are done: the first ones.
    died: usize,
    joined: usize,
}

impl Model for Kills {
    ghost use Rattle.std.specs.Prelude.{◌+◌, ◌≤◌, List, length, drop};
    ghost use Rattle.rx_rules.specs.Run.{Event, events};

    ghost Value = { List Event };

    ghost view = { λ a. events a.place (drop a.joined a.joins) (drop a.died a.kills) };

    ghost invariant = { λ a. (a.died ≤ length a.kills) × (a.joined ≤ length a.joins) × (a.place + length a.joins ≤ 16 + a.joined) };
}

// A join or a death, and its moment.
#[derive(Clone, Copy)]
struct Planned {
    moment: u32,
    due: Due,
}

impl Kills {
    /// All kills of the list and all joins, of which none is done. The joins make the places from `places` on; its condition is that
    /// there are 16 places at most then. After `NoMemory` nothing is kept.
    pub fn open(
        alloc: Global,
        kills: &KillList,
        joins: &JoinList,
        places: u8,
    ) -> Result<Kills, NoMemory>
        requires { places + length joins.now ≤ 16 }
        ensures { IfOk result (λ plan. plan ≡ events places joins.now kills.now) }
    {
        Ok(Kills {
            kills: kills.copy(alloc)?,
            joins: joins.copy(alloc)?,
            place: places,
            died: 0,
            joined: 0,
        })
    }

    /// The first join or death that is not done, where the history's length `len` has reached its moment. It is the least of those
    /// that are not done, by moment, joins before deaths, and by place. None comes exactly where the moment of none of them is
    /// reached. No memory is taken.
    pub fn due(&self, len: u32) -> Option<Due>
        ensures due { IfSome result (λ due. IsDue len (entry_of due) self.now) }
        ensures least { IfSome result (λ due. IsLeastDue len (entry_of due) self.now) }
        ensures none { IfNone result (NoneDue len self.now) }
        ensures unreached { IfNone result (NoneReached len self.now) }
    {
        left_ascend(self);
        due_is_least();
        none_is_reached();
        let planned = self.first()?;
        if planned.moment <= len {
            Some(planned.due)
        } else {
            None
        }
    }

    /// Marks the first join or death that is not done. Its condition is that there is one. No memory is taken.
    pub fn done(&mut self)
        requires { 0 < length self.old }
        ensures { self.new ≡ rest_of self.old }
    {
        joins_never_fall(&self.joins);
        if self.joins_first() {
            prove!(self.joined < self.joins.len());
            self.joined += 1;
            self.place += 1;
        } else {
            prove!(self.died < self.kills.len());
            self.died += 1;
        }
    }

    // The first that is not done.
    fn first(&self) -> Option<Planned>
        ensures some { IfSome result (λ x. self.now ≡ record { moment = x.moment; entry = entry_of x.due } ∷ rest_of self.now) }
        ensures none { IfNone result (self.now ≡ []) }
    {
        joins_never_fall(&self.joins);
        if self.joins_first() {
            Some(Planned {
                moment: self.joins.item(self.joined),
                due: Due::Join(PlaceId(self.place)),
            })
        } else if self.died < self.kills.len() {
            let kill = self.kills.item(self.died);
            Some(Planned {
                moment: kill.moment,
                due: Due::Death(kill.place),
            })
        } else {
            None
        }
    }

    // Whether the first that is not done is a join: there is one, and no death has an earlier moment.
    fn joins_first(&self) -> bool
        ensures { result ≡ starts_with_join self.now }
    {
        joins_never_fall(&self.joins);
        if self.joined == self.joins.len() {
            return false;
        }
        if self.died == self.kills.len() {
            return true;
        }
        self.joins.item(self.joined) <= self.kills.item(self.died).moment
    }
}

/// A law: what is not done comes in ascending order.
pub fn left_ascend(kills: &Kills)
    ensures { EventsAscend kills.now }
{
    kills_ascend(&kills.kills);
}
