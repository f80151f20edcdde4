ghost use Rattle.std.specs.Prelude.{◌≡◌, ◌≤◌};

use crate::same::same;
use rx_book::{Fact, Lock};
use std::sync::Wait;
use std::sync::atomic::AtomicU64;
use std::test::Fail;
use std::thread;
use std::thread::Threads;
use std::time::Duration;

// A number that is at most the key.
struct IsWithin;

impl Fact<u64, u64> for IsWithin {
    ghost use Rattle.std.specs.Prelude.{◌≤◌};

    ghost holds = { λ most n. n ≤ most };
}

// Adds one so often, and naps for so many microseconds with the lock: who comes meanwhile falls asleep where the nap is long.
fn add_up<R: Wait>(
    rt: &R,
    lock: &Lock<u64, u64, IsWithin>,
    most: u64,
    bed: &AtomicU64,
    times: u32,
    micros: u64,
)
    requires { lock.now.key ≡ most }
{
    for _ in 0..times {
        let (n, turn) = lock.lock(rt);
        if micros > 0 {
            bed.park_timeout(rt, 0, Duration::from_micros(micros));
        }
        let next = if n < most { n + 1 } else { n };
        lock.unlock(turn, next);
    }
}

// The same by two threads.
fn add_up_by_two<R: Threads + Wait + Sync>(
    rt: &R,
    lock: &Lock<u64, u64, IsWithin>,
    most: u64,
    bed: &AtomicU64,
    times: u32,
    micros: u64,
)
    requires { lock.now.key ≡ most }
{
    thread::join(
        rt,
        || add_up(rt, lock, most, bed, times, micros),
        || add_up(rt, lock, most, bed, times, micros),
    );
}

#[test]
fn threads_take_turns_and_each_sleeper_is_woken(rt: HostRuntime) -> Result<(), Fail> {
    for (times, micros, sum) in [(100, 0, 300), (3, 20_000, 9), (50, 2_000, 150)] {
        let made: Result<Lock<u64, u64, IsWithin>, _> = Lock::new(rt.alloc(), 0, &1000);
        let Ok(lock) = made else {
            panic!(rt; "no memory")
        };
        let shared = &lock;
        let bed = AtomicU64::new(0);
        let bed = &bed;
        // (while one has the lock the two others fall asleep, and then one of them wakes the other)
        thread::join(
            &rt,
            || add_up(&rt, shared, 1000, bed, times, micros),
            || add_up_by_two(&rt, shared, 1000, bed, times, micros),
        );
        let (n, turn) = lock.lock(&rt);
        lock.close(turn);
        same(&rt, n, sum);
    }
    Ok(())
}
