// What no clause says: that each call which takes memory can succeed, and how the std adapters meet readers and writers.
use crate::same::same;
use rx_base::{
    Batch, CellGate, Failed, Fault, Faults, Gate, MeetGate, NoGate, NoMemory, Path, PlaceId,
    PlaceSet, RxWord, Sink, Source, StdSink, StdSource,
};
use std::alloc::Global;
use std::io::{Cursor, Read, Write};
use std::test::Fail;
use std::thread::Threads;
use std::{io, thread};

// How many faults the two lists have, and the last of each.
fn faults_joined(alloc: Global) -> Result<(usize, usize, Fault, Fault), NoMemory> {
    let mut faults = Faults::open(alloc);
    faults.push(Fault::Dead(PlaceId(1)))?;
    let mut more = faults.copy(alloc)?;
    more.push(Fault::Thrown(-1))?;
    let both = faults.joined(alloc, &more)?;
    if faults.append(more).is_err() || faults.len() != 3 || both.len() != 3 {
        return Err(NoMemory);
    }
    Ok((faults.len(), both.len(), faults.item(1), both.item(2)))
}

// A path of nine numbers.
fn long_path(alloc: Global) -> Result<Path, NoMemory> {
    let mut path = Path::open(alloc);
    for number in [2, 0, 4, 7, 1, 9, 3, 8, 5] {
        path.push(number)?;
    }
    Ok(path)
}

// The copy of a batch of the empty path and the long one.
fn batch_copied(alloc: Global) -> Result<Batch, NoMemory> {
    let mut batch = Batch::open(alloc);
    batch.push(Path::open(alloc))?;
    let path = long_path(alloc)?;
    batch.push(path.copy(alloc)?)?;
    batch.copy(alloc)
}

#[test]
fn lists_find_memory(rt: HostRuntime) -> Result<(), Fail> {
    let told = faults_joined(rt.alloc())?;
    same(
        &rt,
        told,
        (3, 3, Fault::Dead(PlaceId(1)), Fault::Thrown(-1)),
    );
    let copy = batch_copied(rt.alloc())?;
    assert!(rt; copy.len() == 2);
    same(&rt, copy.item(0).len(), 0);
    let mut short = [0; 7];
    same(
        &rt,
        copy.item(1).numbers(&mut short),
        [2, 0, 4, 7, 1, 9, 3, 8, 5].as_slice(),
    );
    let word = RxWord::from_bytes(rt.alloc(), b"--kill")?;
    same(&rt, word.bytes(), b"--kill".as_slice());
    let set = PlaceSet::empty().with(PlaceId(0)).with(PlaceId(15));
    same(&rt, set, PlaceSet(0x8001));
    Ok(())
}

// Fails at the first call alone.
#[derive(Drop)]
struct FailsFirst {
    failed: bool,
}

impl Read for FailsFirst {
    fn read(&mut self, _buf: &mut [u8]) -> io::Result<usize> {
        if self.failed {
            return Ok(0);
        }
        self.failed = true;
        Err(io::Error::from(io::ErrorKind::Interrupted))
    }
}

impl Write for FailsFirst {
    fn write(&mut self, buf: &[u8]) -> io::Result<usize> {
        if self.failed {
            return Ok(buf.len());
        }
        self.failed = true;
        Err(io::Error::from(io::ErrorKind::BrokenPipe))
    }

    fn flush(&mut self) -> io::Result<()> {
        Ok(())
    }
}

#[test]
fn adapters_pass_on_what_std_answers(rt: HostRuntime) {
    let mut buf = [0; 4];
    let mut source = StdSource::over(Cursor::new(b"abc".as_slice()));
    same(&rt, source.read(&mut buf[..0]), Ok(0));
    same(&rt, source.read(&mut buf), Ok(3));
    same(&rt, buf, *b"abc\0");
    same(&rt, source.read(&mut buf), Ok(0));
    let mut source = StdSource::over(FailsFirst { failed: false });
    same(&rt, source.read(&mut buf), Err(Failed));
    same(&rt, source.read(&mut buf), Ok(0));

    let mut sink = StdSink::over(Cursor::new([0; 3]));
    same(&rt, sink.write(b"abcd"), Ok(3));
    same(&rt, sink.write(b"d"), Err(Failed));
    same(&rt, sink.write(b""), Ok(0));
    let mut sink = StdSink::over(FailsFirst { failed: false });
    same(&rt, sink.write(b"d"), Err(Failed));
    same(&rt, sink.write(b"d"), Ok(1));
}

// Comes by with a turn and a store call.
fn pass<G: Gate>(gate: &G, worker: u32, n: u64, place: u8) {
    gate.turn(worker, n);
    gate.cell(PlaceId(place));
}

// Two workers come by, each on a thread of its own.
fn pass_both<R: Threads + Sync, G: Gate + Sync>(rt: &R, gate: &G) {
    thread::join(rt, || pass(gate, 0, 0, 0), || pass(gate, 1, 0, 1));
}

// A worker, how often it has had its turn, and the place of its store call.
const PASSES: &[(u32, u64, u8)] = &[(2, 0, 0), (0, 0, 1), (1, 1, 0), (1, 0, 0), (0, 0, 0)];

#[test]
fn gates_hold_the_first_comers_until_they_meet(rt: HostRuntime) {
    pass(&NoGate, 0, 0, 0);
    let gate = MeetGate::open(100_000_000);
    pass_both(&rt, &gate);
    assert!(rt; gate.met());
    let alone = MeetGate::open(3);
    for (worker, n, place) in PASSES {
        pass(&alone, *worker, *n, *place);
        assert!(rt; !alone.met());
    }
    let gate = CellGate::open(100_000_000);
    pass_both(&rt, &gate);
    assert!(rt; gate.met());
    let alone = CellGate::open(3);
    pass(&alone, 0, 0, 0);
    assert!(rt; !alone.met());
    pass(&alone, 1, 0, 1);
    assert!(rt; !alone.met());
}
