// The worked words, and what they give.
use crate::same::same;
use rx_base::{Kill, NoMemory, PlaceId, RxWord};
use rx_words::{Command, PickWords, WordFault, read_live, read_words};
use std::alloc::Global;
use std::test::Fail;

// The words of a line, between whose words one blank stands each; no byte gives no word.
fn made(alloc: Global, line: &[u8]) -> Result<Vec<RxWord>, NoMemory> {
    let mut list = Vec::new(alloc);
    let mut word = Vec::new(alloc);
    for byte in line {
        if *byte == b' ' {
            list.push(RxWord::from_bytes(alloc, &word)?)?;
            word.clear();
        } else {
            word.push(*byte)?;
        }
    }
    if !line.is_empty() {
        list.push(RxWord::from_bytes(alloc, &word)?)?;
    }
    Ok(list)
}

// The number of the bad word, or none where the words are a command.
fn bad_word(alloc: Global, line: &[u8]) -> Result<Option<u32>, NoMemory> {
    let list = made(alloc, line)?;
    match read_words(alloc, &list) {
        Ok(_) => Ok(None),
        Err(WordFault::Bad { word }) => Ok(Some(word)),
        Err(WordFault::NoMemory) => Err(NoMemory),
    }
}

// Words, and the number of the first bad one.
const BAD_WORDS: &[(&[u8], Option<u32>)] = &[
    (b"", Some(0)),
    (b"stop", Some(0)),
    (b"step more", Some(1)),
    (b"check more", Some(1)),
    (b"check", None),
    (b"verify", None),
    (b"verify --places 2", Some(1)),
    (b"span", None),
    (b"span verify", Some(1)),
    (b"step --places 2 --kill 0@3", Some(4)),
    (b"step --kill 1@1 --kill 1@2", Some(4)),
    (b"step --kill 2@1", Some(2)),
    (b"step --kill", Some(2)),
    (b"step --places 17", Some(2)),
    (b"step --heap 4096 --heap 1", Some(3)),
    (b"step --heap 4096 --places", Some(4)),
    (b"step --heap 0", Some(2)),
    (b"step --places 02", Some(2)),
    (b"step --pick", Some(2)),
    (b"step --pick ", Some(2)),
    (b"step --pick 1,", Some(2)),
    (b"step --pick 1000001", Some(2)),
    (b"step --pick 0 --seed 5", Some(3)),
    (b"gen --seed 5 --seed 5", Some(3)),
    (b"step --seed 18446744073709551616", Some(2)),
    (b"gen --pick 0", Some(1)),
    (b"step --size 1", Some(1)),
    (b"gen", Some(1)),
    (b"gen --size", Some(2)),
    (b"gen --size 0", Some(2)),
    (b"gen --size 10001", Some(2)),
    // a kill is looked at only where no word is missing
    (b"gen --kill 0@1", Some(3)),
    (b"gen --kill 0@1 --size 1", Some(2)),
    (b"step --places 2 --join 5 --kill 2@4", Some(6)),
    (b"step --places 2 --join 5 --kill 2@5", None),
    (b"step --places 16 --join 1", Some(4)),
    (b"step --places 16 --join 1 --kill 0@1", Some(4)),
    (b"step --places 16 --kill 0@1 --join 1", Some(4)),
    // the place of a kill may join by a later word, at the second of two moments
    (b"step --kill 3@6 --join 7 --join 5", Some(2)),
    (b"step --kill 3@7 --join 7 --join 5", None),
    (b"step --kill 4@7 --join 7 --join 5", Some(2)),
    (b"step --join 1000001", Some(2)),
    (b"step --join 05", Some(2)),
    (b"step --join", Some(2)),
    (b"gen --join 1 --size 1", Some(1)),
    (b"check --join 1", Some(1)),
];

#[test]
fn the_first_bad_word_is_told(rt: HostRuntime) -> Result<(), Fail> {
    for (line, want) in BAD_WORDS {
        same(&rt, bad_word(rt.alloc(), line)?, *want);
    }
    Ok(())
}

// The moments of the joins of the setup that words give, in their order, or none where they give none.
fn joins_of(alloc: Global, line: &[u8]) -> Result<Vec<u32>, NoMemory> {
    let list = made(alloc, line)?;
    let mut joins = Vec::new(alloc);
    if let Ok(Command::Step { setup, .. }) = read_words(alloc, &list) {
        for i in 0..setup.joins.len() {
            joins.push(setup.joins.item(i))?;
        }
    }
    Ok(joins)
}

// The kills of the setup that words give, in their order, or none where they give none.
fn kills_of(alloc: Global, line: &[u8]) -> Result<Vec<Kill>, NoMemory> {
    let list = made(alloc, line)?;
    let mut kills = Vec::new(alloc);
    if let Ok(Command::Step { setup, .. }) = read_words(alloc, &list) {
        for i in 0..setup.kills.len() {
            kills.push(setup.kills.item(i))?;
        }
    }
    Ok(kills)
}

fn planned(place: u8, moment: u32) -> Kill {
    Kill {
        place: PlaceId(place),
        moment,
    }
}

// The pick list that words give, or none where they give none.
fn picks_of(alloc: Global, line: &[u8]) -> Result<Vec<u32>, NoMemory> {
    let list = made(alloc, line)?;
    let mut picks = Vec::new(alloc);
    if let Ok(Command::Step { picks: given, .. }) = read_words(alloc, &list) {
        if let PickWords::List(numbers) = given {
            picks = numbers;
        }
    }
    Ok(picks)
}

// The size and the seed that words give, or none where they give none.
fn size_and_seed(alloc: Global, line: &[u8]) -> Result<(u32, Option<u64>), NoMemory> {
    let list = made(alloc, line)?;
    match read_words(alloc, &list) {
        Ok(Command::Gen { size, seed, .. }) => Ok((size, seed)),
        _ => Ok((0, None)),
    }
}

#[test]
fn what_words_give_stands_in_order(rt: HostRuntime) -> Result<(), Fail> {
    let alloc = rt.alloc();
    let joins = joins_of(
        alloc,
        b"step --join 1000000 --join 5 --places 12 --join 0 --join 5",
    )?;
    same(&rt, joins.as_slice(), [0, 5, 5, 1_000_000].as_slice());
    let kills = kills_of(
        alloc,
        b"step --kill 2@13 --kill 3@12 --places 4 --kill 1@13",
    )?;
    let want = [planned(3, 12), planned(1, 13), planned(2, 13)];
    same(&rt, kills.as_slice(), want.as_slice());
    let picks = picks_of(alloc, b"step --pick 7,0,1000000")?;
    same(&rt, picks.as_slice(), [7, 0, 1_000_000].as_slice());
    let told = size_and_seed(alloc, b"gen --seed 18446744073709551615 --size 10000")?;
    same(&rt, told, (10_000, Some(18_446_744_073_709_551_615)));
    Ok(())
}

// How many workers the words of `live` give and with how many snapshots they watch it, 0 where they do not, or else the number of the
// bad word. Other words give no worker.
fn live_of(alloc: Global, line: &[u8]) -> Result<(u32, u32, Option<u32>), NoMemory> {
    let list = made(alloc, line)?;
    match read_live(alloc, &list) {
        Ok(Some(live)) => Ok((live.workers, live.watch.unwrap_or(0), None)),
        Ok(None) => Ok((0, 0, None)),
        Err(WordFault::Bad { word }) => Ok((0, 0, Some(word))),
        Err(WordFault::NoMemory) => Err(NoMemory),
    }
}

// Words, and what they give `live`.
const LIVE_WORDS: &[(&[u8], u32, u32, Option<u32>)] = &[
    (b"live", 2, 0, None),
    (b"live --watch 1000", 2, 1000, None),
    (b"live --watch 0", 0, 0, Some(2)),
    (b"live --watch 1001", 0, 0, Some(2)),
    (b"live --watch", 0, 0, Some(2)),
    (b"live --watch 1 --watch 1", 0, 0, Some(3)),
    (b"step --workers 2", 0, 0, None),
    (b"live --workers 8", 8, 0, None),
    (b"live --workers 9", 0, 0, Some(2)),
    (b"live --workers 0", 0, 0, Some(2)),
    (b"live --pick 0", 0, 0, Some(1)),
    (b"live --seed 0", 0, 0, Some(1)),
    (b"live --kill 2@1", 0, 0, Some(2)),
    (b"live --kill 2@1 --join 1", 2, 0, None),
    (b"live --workers 1 --workers 1", 0, 0, Some(3)),
];

#[test]
fn words_of_live(rt: HostRuntime) -> Result<(), Fail> {
    for (line, workers, watch, bad) in LIVE_WORDS {
        same(&rt, live_of(rt.alloc(), line)?, (*workers, *watch, *bad));
    }
    assert!(rt; read_words(rt.alloc(), &made(rt.alloc(), b"step --watch 1")?).is_err());
    Ok(())
}
