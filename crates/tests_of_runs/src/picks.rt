// What no clause says: that a list of picks can be opened, and that picks may be moved between threads.
use crate::same::same;
use rx_machine::{ListPicks, Picks, SeedPicks};
use std::test::Fail;

// Values of the type may be moved to another thread.
fn may_move<T: Send>() {}

/// The picks of a list come in their order, and then 0; those of a seed are the words of its generator, from the first one on.
#[test]
fn picks_come_in_order(rt: HostRuntime) -> Result<(), Fail> {
    may_move::<ListPicks>();
    may_move::<SeedPicks>();
    let mut picks = ListPicks::open(rt.alloc(), &[3, 1])?;
    for pick in [3, 1, 0, 0] {
        same(&rt, picks.next(), pick);
    }
    let mut picks = SeedPicks::open(5);
    for pick in [257_813_417, 4_216_695_592, 1_501_603_199] {
        same(&rt, picks.next(), pick);
    }
    Ok(())
}
