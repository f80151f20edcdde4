// The lock, and the turn of the one who has it.
ghost use Rattle.std.specs.Prelude.{◌≡◌, if◌then◌else◌, IfOk, IfErr};

use crate::steps::{Close, Fact, Give, Hand, MaySleep, Rule, Sit, Take};
use atomic_table::{Seat, Table};
use rx_base::NoMemory;
use std::alloc::Global;
use std::hint::spin_loop;
use std::marker::Model;
use std::sync::Wait;

// How often one who finds the value out looks for it again before it sleeps: as often as the kit's `Mutex` does.
const LOOKS: u32 = 100;

/// The right and the duty to put a value back. It can't be dropped. Contracts see it as the lock that it is of.
pub struct Turn<T, K> {
    seat: Seat<Option<T>, Hand<K>>,
}

impl<T, K> Model for Turn<T, K> {
    ghost use Rattle.std.specs.Prelude.{◌≡◌, [], ◌∷◌, None};
    ghost use Rattle.rx_book.specs.Locks.{LockId};
    ghost use Rattle.rx_book.specs.Latched.{holding};

    ghost Value = { LockId K };

    ghost view = { λ t. record { table = t.seat.table_id; key = t.seat.me.0.key } };

    ghost invariant = { λ t. (t.seat.me.0 ≡ holding t.seat.me.0.key) × (t.seat.me.1 ≡ (0, None) ∷ []) };
}

/// A value under a lock. `F` is the fact that the value keeps about the key whenever no one has the lock. Contracts see which
/// lock it is, and the key. The word beside the value is 0 where the value is at home, 1 where it is out, 2 where it is out and
/// somebody may sleep, and 3 once the lock is closed.
pub struct Lock<T, K, F: Fact<T, K>> {
    table: Table<Option<T>, Hand<K>, K, Rule<F>, Global>,
}

impl<T, K, F: Fact<T, K>> Model for Lock<T, K, F> {
    ghost use Rattle.std.specs.Prelude.{◌≡◌};
    ghost use Rattle.rx_book.specs.Locks.{LockId};

    ghost Value = { LockId K };

    ghost view = { λ l. record { table = l.table.shared.table_id; key = l.table.shared.key } };

    ghost invariant = { λ l. (l.table.shared.table_id.words ≡ 1) × (l.table.shared.table_id.slots ≡ 1) };
}

impl<T, K, F: Fact<T, K>> Lock<T, K, F> {
    /// A lock with this value and this key. The key exists for contracts alone, and is only looked at. `Err` means out of memory
    /// and hands the value back.
    pub fn new(alloc: Global, value: T, key: &K) -> Result<Lock<T, K, F>, (T, NoMemory)>
        requires { F.holds key.now value }
        ensures ok { IfOk result (λ l. l.key ≡ key.now) }
        ensures err { IfErr result (λ e. e.0 ≡ value) }
    {
        let mut slots = Vec::new(alloc);
        if let Err(failed) = slots.push(Some(value)) {
            let Some(value) = failed.value else {
                unreachable!()
            };
            slots.destroy_empty();
            return Err((value, NoMemory));
        }
        match Table::new(alloc, &[0], slots, key) {
            Ok((table, _)) => Ok(Lock { table }),
            Err(mut refused) => {
                let Some(Some(value)) = refused.slots.pop() else {
                    unreachable!()
                };
                refused.slots.destroy_empty();
                Err((value, NoMemory))
            }
        }
    }

    /// Waits until the value is at home, and takes it: it looks a few times, and then sleeps. Whoever comes first takes it, also
    /// before one that has waited for longer. No memory.
    pub fn lock<R: Wait>(&self, rt: &R) -> (T, Turn<T, K>)
        ensures fact { F.holds self.now.key result.0 }
        ensures own { result.1 ≡ self.now }
    {
        let shared = &self.table.shared;
        let (_, mut seat) = shared.load_new_seat::<Sit>(0);
        let mut has_slept = false;
        for _ in rt.forever() {
            let found = shared.compare_exchange::<Take<F>>(&mut seat, 0, 0, taken(has_slept));
            if found == 0 {
                let Some(value) = shared.exchange(&mut seat, 0, None) else {
                    unreachable!()
                };
                return (value, Turn { seat });
            }
            if !self.comes_home() {
                has_slept = true;
                shared.compare_exchange::<MaySleep>(&mut seat, 0, 1, 2);
                shared.park(rt, 0, 2);
            }
        }
        unreachable!()
    }

    // Whether the value is seen at home within some looks, which cost less than sleep where it is soon put back.
    fn comes_home(&self) -> bool {
        for _ in 0..LOOKS {
            if self.table.shared.peek(0) == 0 {
                return true;
            }
            spin_loop();
        }
        false
    }

    /// Whether somebody has the value, or the lock is closed. The answer may be out of date at once. One look, without the lock.
    pub fn is_taken(&self) -> bool {
        self.table.shared.peek(0) != 0
    }

    /// Puts a value back, and wakes one who waits where somebody may sleep. No memory.
    pub fn unlock(&self, turn: Turn<T, K>, value: T)
        requires own { turn ≡ self.now }
        requires fact { F.holds self.now.key value }
    {
        let shared = &self.table.shared;
        let Turn { mut seat } = turn;
        let gone = shared.exchange(&mut seat, 0, Some(value));
        let None = gone else { unreachable!() };
        let found = shared.swap::<Give>(&mut seat, 0, 0);
        if found == 2 {
            shared.wake_one(0);
        }
    }

    /// Ends the lock, whose value is out with this turn.
    pub fn close(self, turn: Turn<T, K>)
        requires { turn ≡ self }
    {
        let Self { table } = self;
        let Turn { mut seat } = turn;
        table.shared.store::<Close>(&mut seat, 0, 3);
        let mut closed = table.close_with(seat);
        let gone = closed.take(0);
        closed.free();
        let None = gone else { unreachable!() };
    }
}

// The word of one who takes the value. A wake ends one sleep alone and leaves no mark of the others, so one who has slept leaves it anew.
fn taken(has_slept: bool) -> u64
    ensures { result ≡ (if has_slept then 2 else 1) }
{
    if has_slept { 2 } else { 1 }
}
