// That a snapshot looks, that a receipt brings what was shown, and that a reader may be moved to another thread.
ghost use Rattle.std.specs.Prelude.{◌≡◌, IfOk};
ghost use Rattle.rx_monitor.specs.Boards.{StandInOrder};

use crate::same::same;
use rx_base::{NoMemory, PlaceSet};
use rx_monitor::{Board, BoardReader, Summary, finish};
use std::test::Fail;
use std::thread;

fn of_len(len: u32) -> Summary
    ensures { (result.len ≡ len) × (result.dead.0 ≡ 0) }
{
    Summary {
        len,
        scopes: 1,
        live: 1,
        travel: 0,
        dead: PlaceSet(0),
    }
}

#[test]
fn a_receipt_is_learned(rt: HostRuntime) -> Result<(), Fail> {
    let Ok((mut writer, mut reader)) = Board::open(&rt, rt.alloc(), of_len(0)) else {
        panic!(rt; "no memory")
    };
    let shown = writer.show(&rt, rt.alloc(), of_len(1));
    let receipt = writer.tell();
    reader.learn(receipt);
    let last = reader.snap();
    writer.hear(&mut reader);
    writer.close(&rt);
    assert!(rt; shown.is_ok());
    same(&rt, last.len, 1);
    Ok(())
}

#[test]
fn a_snapshot_looks_at_the_page(rt: HostRuntime) -> Result<(), Fail> {
    let Ok((mut writer, mut reader)) = Board::open(&rt, rt.alloc(), of_len(0)) else {
        panic!(rt; "no memory")
    };
    let before = reader.snap();
    let shown = writer.show(&rt, rt.alloc(), of_len(1));
    let last = reader.snap();
    let again = reader.snap();
    writer.hear(&mut reader);
    writer.close(&rt);
    assert!(rt; shown.is_ok());
    same(&rt, (before.len, last.len, again.len), (0, 1, 1));
    Ok(())
}

#[test]
fn a_reader_may_be_moved(rt: HostRuntime) -> Result<(), Fail> {
    let Ok((mut writer, reader)) = Board::open(&rt, rt.alloc(), of_len(0)) else {
        panic!(rt; "no memory")
    };
    let shown = writer.show(&rt, rt.alloc(), of_len(1));
    let shared = &rt;
    let alloc = rt.alloc();
    let (_, (mut reader, items)) = thread::join(
        shared,
        || true,
        move || -> (BoardReader, Result<Vec<Summary>, NoMemory>)
            ensures { (result.0.board ≡ reader.board) × IfOk result.1 (λ v. StandInOrder result.0.list 0 v.items) }
        {
            let mut reader = reader;
            let items = reader.watch(alloc, 3);
            (reader, items)
        },
    );
    let watched = match items {
        Ok(items) => finish(&mut writer, &mut reader, items),
        Err(full) => Err(full),
    };
    writer.close(&rt);
    assert!(rt; shown.is_ok());
    let Ok(watched) = watched else {
        panic!(rt; "no memory")
    };
    assert!(rt; watched.len() == 4);
    Ok(())
}
