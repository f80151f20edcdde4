// When workers stop, and when they sleep and wake, which no contract says.
use rx_activities::Company;
use rx_stations::bed::Bed;
use std::test::Fail;

#[test]
fn workers_stop_and_sleep_by_the_bed(rt: HostRuntime) -> Result<(), Fail> {
    let bed = Bed::of_one();
    bed.starts();
    bed.ends();
    assert!(rt; !bed.is_done());
    bed.ends();
    assert!(rt; bed.is_done() && !bed.is_refused());
    let bed = Bed::of_one();
    bed.refuse();
    assert!(rt; bed.is_refused() && bed.is_done());
    // (of two workers that lie the second sees that both do; a wake before the sleep ends it)
    let bed = Bed::of_one();
    bed.begins();
    bed.begins();
    assert!(rt; !bed.wake());
    bed.lies_down();
    assert!(rt; !bed.is_still());
    bed.lies_down();
    assert!(rt; bed.is_still());
    bed.is_away();
    assert!(rt; bed.is_still());
    bed.puts();
    bed.is_away();
    assert!(rt; !bed.is_still());
    assert!(rt; bed.wake());
    assert!(rt; !bed.wake());
    bed.sleeps(&rt);
    bed.gets_up(&rt);
    assert!(rt; !bed.wake());
    // (one alone does not sleep when it gives way)
    bed.leaves();
    bed.gives_way(&rt);
    assert!(rt; bed.has_more());
    bed.took();
    assert!(rt; !bed.has_more());
    Ok(())
}
