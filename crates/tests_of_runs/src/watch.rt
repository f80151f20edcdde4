// The lines as they are read.
use rx_base::PlaceSet;
use rx_monitor::{Summary, put_watch};
use std::test::Fail;

#[test]
fn lines_of_a_watch(rt: HostRuntime) -> Result<(), Fail> {
    let mut text = Vec::new(rt.alloc());
    let seen = [
        Summary {
            len: 0,
            scopes: 1,
            live: 1,
            travel: 0,
            dead: PlaceSet(0),
        },
        Summary {
            len: 12,
            scopes: 3,
            live: 2,
            travel: 1,
            dead: PlaceSet(0b1000_0000_0000_0110),
        },
    ];
    put_watch(&mut text, &seen)?;
    assert!(rt;
        text.as_slice()
            == b"seen 0 scopes 1 live 1 travel 0\nseen 12 scopes 3 live 2 travel 1 dead 1 2 15\n".as_slice()
    );
    Ok(())
}
