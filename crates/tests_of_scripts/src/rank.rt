// A set by hand.
use crate::same::same;
use rx_rank::Ranks;
use std::test::Fail;

#[test]
fn third_of_five(rt: HostRuntime) -> Result<(), Fail> {
    let mut ranks = Ranks::open(rt.alloc());
    ranks.room(40)?;
    ranks.insert(31);
    ranks.insert(3);
    ranks.insert(17);
    ranks.insert(3);
    ranks.room(1000)?;
    ranks.insert(999);
    ranks.insert(0);
    assert!(rt; ranks.len() == 5);
    if ranks.len() == 5 {
        same(&rt, ranks.nth(0), 0);
        same(&rt, ranks.nth(1), 3);
        same(&rt, ranks.nth(2), 17);
        same(&rt, ranks.nth(3), 31);
        same(&rt, ranks.nth(4), 999);
    }
    ranks.remove(17);
    ranks.remove(2000);
    assert!(rt; ranks.len() == 4);
    Ok(())
}
