// What no clause says of `verify` and `span`: that a pair is answered at all.
use crate::program::{Outside, SCRIPT, gives, plain};
use crate::texts::ORDINARY;
use rx_base::NoMemory;
use rx_program::Status;
use rx_text::put_natural;
use std::alloc::Global;

// The pair of a script and a trace.
fn pair(alloc: Global, script: &[u8], trace: &[u8]) -> Result<Vec<u8>, NoMemory> {
    let Ok(size) = u32::try_from(script.len()) else {
        return Err(NoMemory);
    };
    let mut bytes = b"rx10 pair ".to_vec(alloc)?;
    put_natural(&mut bytes, size)?;
    bytes.push(b'\n')?;
    bytes.extend_from_slice(script)?;
    bytes.extend_from_slice(trace)?;
    Ok(bytes)
}

// Whether `verify` answers that the trace is one of a whole run of the script.
pub(crate) fn is_run(alloc: Global, script: &[u8], trace: &[u8]) -> Result<bool, NoMemory> {
    let bytes = pair(alloc, script, trace)?;
    gives(alloc, &plain(b"verify", &bytes), Status::Done, b"run\n")
}

#[test]
fn a_chain_and_a_flaw(rt: HostRuntime) -> Result<(), NoMemory> {
    let whole = pair(rt.alloc(), SCRIPT, ORDINARY)?;
    let chain = b"statements 4\nchain 2\n0\n1\n";
    assert!(rt; gives(rt.alloc(), &plain(b"span", &whole), Status::Done, chain)?);
    // the trace is one of another script
    let other = pair(rt.alloc(), b"print 8;", ORDINARY)?;
    for line in [b"verify".as_slice(), b"span"] {
        assert!(rt;
            gives(
                rt.alloc(),
                &plain(line, &other),
                Status::Faulted,
                b"entry 0\n"
            )?
        );
    }
    let short = Outside {
        room: 2,
        ..plain(b"verify", &whole)
    };
    assert!(rt; gives(rt.alloc(), &short, Status::WriteFault, b"ru")?);
    Ok(())
}
