// The activities of one place.
use crate::bed::Bed;
use rx_activities::{Activity, Naming};
use rx_base::{NoMemory, ScopeId};
use rx_objects::ScopeSet;
use std::alloc::Global;
use std::collections::{BTreeMap, VecDeque};

/// The activities of a place: those that may go on, the next first, and those that wait, by the scopes at which they wait. It can't be
/// dropped.
pub(crate) struct Queue<N: Naming> {
    ready: VecDeque<Activity<N>>,
    waiting: BTreeMap<u32, Activity<N>>,
    /// Scopes whose openers were called before they lay here.
    called: ScopeSet,
}

impl<N: Naming> Queue<N> {
    /// Without activities. It takes no memory.
    pub(crate) fn new(alloc: Global) -> Queue<N> {
        Queue {
            ready: VecDeque::new(alloc),
            waiting: BTreeMap::new(alloc),
            called: ScopeSet::new(alloc),
        }
    }

    /// Puts one that may go on behind the others. A refusal means out of memory, and hands it back.
    pub(crate) fn put(&mut self, a: Activity<N>) -> Result<(), Activity<N>> {
        match self.ready.push_back(a) {
            Ok(()) => Ok(()),
            Err(failed) => Err(failed.value),
        }
    }

    /// The next that may go on.
    pub(crate) fn next(&mut self) -> Option<Activity<N>> {
        self.ready.pop_front()
    }

    /// Lets the opener of a scope wait here until it is called. Where it was called before, it is given back. A refusal means out of
    /// memory, and hands it back.
    pub(crate) fn keep(
        &mut self,
        scope: ScopeId,
        a: Activity<N>,
    ) -> Result<Option<Activity<N>>, Activity<N>> {
        if self.called.take(scope) {
            return Ok(Some(a));
        }
        match self.waiting.insert(scope.0, a) {
            Ok(before) => Ok(before),
            Err(failed) => Err(failed.value.1),
        }
    }

    /// Calls the opener of a scope: it is taken out. Where it does not lie here yet, it is noted that it was called.
    pub(crate) fn call(&mut self, scope: ScopeId) -> Result<Option<Activity<N>>, NoMemory> {
        if let Some(a) = self.waiting.remove(&scope.0) {
            return Ok(Some(a));
        }
        self.called.add(scope)?;
        Ok(None)
    }

    /// Puts all that wait behind the others. False means out of memory.
    pub(crate) fn call_all(&mut self, bed: &Bed) -> bool {
        'rest: while let Some((_, a)) = self.waiting.pop_first() {
            bed.puts();
            if let Err(failed) = self.ready.push_back(a) {
                let _pass = failed.value.give_up();
                return false;
            }
        }
        true
    }

    /// Ends the queue, and gives up what is left in it.
    pub(crate) fn end(self) {
        let Queue {
            ready,
            waiting,
            called: _,
        } = self;
        give_up_ready(ready);
        give_up_waiting(waiting);
    }
}

// Gives up each that may go on.
fn give_up_ready<N: Naming>(mut activities: VecDeque<Activity<N>>) {
    'rest: while let Some(activity) = activities.pop_front() {
        let _pass = activity.give_up();
    }
    activities.destroy_empty();
}

// Gives up each that waits.
fn give_up_waiting<N: Naming>(mut activities: BTreeMap<u32, Activity<N>>) {
    'rest: while let Some((_, activity)) = activities.pop_first() {
        let _pass = activity.give_up();
    }
    activities.destroy_empty();
}
