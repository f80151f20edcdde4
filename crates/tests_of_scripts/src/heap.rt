// The worked examples of the region.
use crate::same::same;
use rx_heap::{Full, Heap, Hole};
use std::test::Fail;

#[test]
fn front_hole(rt: HostRuntime) -> Result<(), Fail> {
    let mut heap = Heap::open(rt.alloc(), 8)?;
    let a = heap.take(4).expect(&rt, "a hole of 8");
    assert!(rt; a.start() == 0);
    let b = heap.take(4).expect(&rt, "a hole of 4");
    assert!(rt; b.start() == 4);
    heap.write(&a, 3, 7);
    heap.write(&b, 0, 8);
    same(&rt, heap.read(&a, 3), 7);
    same(&rt, heap.read(&b, 0), 8);
    heap.give(a);
    same(&rt, heap.holes(), [Hole { start: 0, len: 4 }].as_slice());
    match heap.take(5) {
        Ok(c) => {
            heap.give(c);
            panic!(rt; "five words are in no hole");
        }
        Err(Full) => {}
    }
    heap.give(b);
    same(&rt, heap.holes(), [Hole { start: 0, len: 8 }].as_slice());
    Ok(())
}

#[test]
fn three_blocks_of_two(rt: HostRuntime) -> Result<(), Fail> {
    let mut heap = Heap::open(rt.alloc(), 6)?;
    let a = heap.take(2).expect(&rt, "a hole of 6");
    assert!(rt; a.start() == 0);
    let b = heap.take(2).expect(&rt, "a hole of 4");
    assert!(rt; b.start() == 2);
    let c = heap.take(2).expect(&rt, "a hole of 2");
    assert!(rt; c.start() == 4);
    assert!(rt; c.len() == 2);
    heap.give(a);
    heap.give(c);
    same(
        &rt,
        heap.holes(),
        [Hole { start: 0, len: 2 }, Hole { start: 4, len: 2 }].as_slice(),
    );
    match heap.take(3) {
        Ok(d) => {
            heap.give(d);
            panic!(rt; "three words are in no hole");
        }
        Err(Full) => {}
    }
    heap.give(b);
    same(&rt, heap.holes(), [Hole { start: 0, len: 6 }].as_slice());
    Ok(())
}
