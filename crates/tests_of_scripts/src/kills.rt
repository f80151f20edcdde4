// The worked spellings, and plans with more than one event at one moment.
ghost use Rattle.std.specs.Prelude.{◌≡◌};

use crate::same::same;
use rx_base::{Kill, PlaceId};
use rx_history::{JoinList, KillList};
use rx_kills::{Due, Kills, read_kill};
use std::test::Fail;

fn planned(place: u8, moment: u32) -> Kill
    ensures { result ≡ record { place = record { 0 = place }; moment = moment } }
{
    Kill {
        place: PlaceId(place),
        moment,
    }
}

#[test]
fn only_the_one_spelling_is_read(rt: HostRuntime) {
    for (word, want) in [
        (b"0@0".as_slice(), Some((0, 0))),
        (b"1@3", Some((1, 3))),
        (b"15@1000000", Some((15, 1_000_000))),
        (b"01@3", None),
        (b"1@03", None),
        (b"16@0", None),
        (b"1@1000001", None),
        (b"-1@3", None),
        (b"1@-3", None),
        (b"1@3 ", None),
        (b"1@", None),
        (b"@3", None),
        (b"1", None),
        (b"", None),
    ] {
        same(
            &rt,
            read_kill(word),
            want.map(|w| Kill {
                place: PlaceId(w.0),
                moment: w.1,
            }),
        );
    }
}

#[test]
fn joins_stand_among_kills(rt: HostRuntime) -> Result<(), Fail> {
    let mut list = KillList::open(rt.alloc());
    list.push(planned(1, 3))?;
    list.push(planned(2, 3))?;
    list.push(planned(5, 8))?;
    let mut joins = JoinList::open(rt.alloc());
    joins.push(5)?;
    joins.push(5)?;
    joins.push(8)?;
    let mut kills = Kills::open(rt.alloc(), &list, &joins, 3)?;
    same(&rt, kills.due(2), None);
    for (moment, due, before) in [
        (4, Due::Death(PlaceId(1)), None),
        (4, Due::Death(PlaceId(2)), Some(4)),
        (5, Due::Join(PlaceId(3)), None),
        (6, Due::Join(PlaceId(4)), Some(7)),
        (8, Due::Join(PlaceId(5)), None),
        (9, Due::Death(PlaceId(5)), Some(u32::MAX)),
    ] {
        assert!(rt; kills.due(moment) == Some(due));
        kills.done();
        if let Some(later) = before {
            same(&rt, kills.due(later), None);
        }
    }
    Ok(())
}
