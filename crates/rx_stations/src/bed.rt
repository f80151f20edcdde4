//! What workers tell one another beside the queues: what is left to do, and who sleeps. It changes no meaning: no contract speaks of it.
use rx_activities::Company;
use std::sync::Wait;
use std::sync::atomic::{AtomicBool, AtomicU64, Ordering};

/// How many activities there are and lie ready, whether memory was refused, and who sleeps.
#[derive(Drop)]
pub struct Bed {
    /// Activities that are not over, those on their way among them.
    left: AtomicU64,
    refused: AtomicBool,
    /// Activities that lie where a worker may take them. One is counted before it is put, and until after it was taken.
    ready: AtomicU64,
    /// How often all that wait were called, after a death.
    deaths: AtomicU64,
    /// Workers that have begun and not ended.
    workers: AtomicU64,
    /// Workers that lie and were not woken.
    asleep: AtomicU64,
    /// Wakes that nobody has taken. Who sleeps does so at this word. Together with `asleep` they are as many as the workers that lie.
    wakes: AtomicU64,
}

impl Bed {
    /// Of one activity.
    pub fn of_one() -> Bed {
        Bed {
            left: AtomicU64::new(1),
            refused: AtomicBool::new(false),
            ready: AtomicU64::new(0),
            deaths: AtomicU64::new(0),
            workers: AtomicU64::new(0),
            asleep: AtomicU64::new(0),
            wakes: AtomicU64::new(0),
        }
    }

    /// One more activity is started.
    pub fn starts(&self) {
        self.left.fetch_add(1, Ordering::SeqCst);
    }

    /// One is over. After the last one all get up.
    pub fn ends(&self) {
        if self.left.fetch_sub(1, Ordering::SeqCst) == 1 {
            self.wake_all();
        }
    }

    /// Memory was refused. All get up.
    pub fn refuse(&self) {
        self.refused.store(true, Ordering::SeqCst);
        self.wake_all();
    }

    /// Whether memory was refused.
    pub fn is_refused(&self) -> bool {
        self.refused.load(Ordering::SeqCst)
    }

    /// Whether no activity is left, or memory was refused.
    pub fn is_done(&self) -> bool {
        self.left.load(Ordering::SeqCst) == 0 || self.is_refused()
    }

    /// One is put where a worker may take it.
    pub fn puts(&self) {
        self.ready.fetch_add(1, Ordering::SeqCst);
    }

    /// One was taken.
    pub fn took(&self) {
        self.ready.fetch_sub(1, Ordering::SeqCst);
    }

    /// Whether something lies where a worker may take it.
    pub fn has_more(&self) -> bool {
        self.ready.load(Ordering::SeqCst) > 0
    }

    /// A place has died. All that wait are to be called after this.
    pub fn dies(&self) {
        self.deaths.fetch_add(1, Ordering::SeqCst);
    }

    /// How often this was.
    pub fn deaths(&self) -> u64 {
        self.deaths.load(Ordering::SeqCst)
    }

    /// A worker begins.
    pub fn begins(&self) {
        self.workers.fetch_add(1, Ordering::SeqCst);
    }

    /// A worker ends.
    pub fn leaves(&self) {
        self.workers.fetch_sub(1, Ordering::SeqCst);
    }

    /// A worker lies down. It looks once more before it sleeps.
    pub fn lies_down(&self) {
        self.asleep.fetch_add(1, Ordering::SeqCst);
    }

    /// Whether all workers lie, and none was woken.
    pub fn is_still(&self) -> bool {
        self.asleep.load(Ordering::SeqCst) >= self.workers.load(Ordering::SeqCst)
    }

    /// Who lies gets up by itself.
    pub fn gets_up<R: Wait>(&self, rt: &R) {
        for _try in rt.forever() {
            if take(&self.asleep) || take(&self.wakes) {
                return;
            }
        }
    }

    /// Who lies sleeps until it is woken; or gets up where no activity is left or memory was refused.
    pub fn sleeps<R: Wait>(&self, rt: &R) {
        if self.is_done() {
            self.gets_up(rt);
            return;
        }
        for _sleep in rt.forever() {
            if take(&self.wakes) {
                return;
            }
            self.wakes.park(rt, 0);
        }
    }

    /// A worker that has put back what it had in hand gives way: it sleeps until it is woken, unless all lie.
    pub fn gives_way<R: Wait>(&self, rt: &R) {
        self.lies_down();
        if self.is_still() {
            self.gets_up(rt);
        } else {
            self.sleeps(rt);
        }
    }

    /// Wakes one who lies, if one does.
    pub fn wake(&self) -> bool {
        if !take(&self.asleep) {
            return false;
        }
        self.wakes.fetch_add(1, Ordering::SeqCst);
        self.wakes.wake_one();
        true
    }

    // Wakes all who lie. They are at most as many as the workers.
    fn wake_all(&self) {
        for _worker in 0..self.workers.load(Ordering::SeqCst) {
            if !self.wake() {
                return;
            }
        }
    }
}

impl Company for Bed {
    /// Wakes one who lies, where something lies ready.
    fn is_away(&self) {
        if self.has_more() {
            self.wake();
        }
    }
}

// Takes one from a count, if it is above 0.
fn take(count: &AtomicU64) -> bool {
    let took = count.fetch_update(Ordering::SeqCst, Ordering::SeqCst, |n| n.checked_sub(1));
    took.is_ok()
}
