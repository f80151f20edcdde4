// The text of a trace is read.
ghost use Rattle.std.specs.Prelude.{◌≡◌, ◌<◌, ◌^◌, List, [], length, IfOk, IfErr, IfSome, IfNone};
ghost use Rattle.rx_rules.specs.declared.entries.Entry.{Entry};
ghost use Rattle.rx_rules.specs.declared.events.PlaceEvent.{PlaceEvent};
ghost use Rattle.rx_rules.specs.Run.{Given};
ghost use Rattle.rx_history.specs.Events.{events_of};
ghost use Rattle.rx_history.specs.Setups.{given};
ghost use Rattle.rx_trace.specs.Text.{trace_text};
ghost use Rattle.rx_trace.specs.Limits.{IsWithin};
ghost use Rattle.rx_trace.specs.Faults.{IfBadLine};
ghost use Rattle.rx_trace.specs.Reading.{IsBadLine};
ghost use Rattle.rx_trace.specs.Inside.Machine.{Over};
ghost use Rattle.rx_trace.specs.Inside.Stages.{state_of};

use crate::stage::{Stage, read_next};
use rx_fields::first_line;
use rx_history::{History, Journals};
use std::alloc::Global;

/// Why bytes were not read as a trace.
#[derive(Clone, Copy, Debug, PartialEq, Eq)]
pub enum TraceFault {
    /// The first line that no trace text has there, counted from 1. The end of input counts as a line after the last.
    BadLine { number: u32 },
    /// There was no memory.
    NoMemory,
}

/// The history and the journals of which the bytes are the text. `BadLine` comes exactly where they are no text of a pair within
/// the limits. The condition is fewer than 2^31 bytes. It takes time and memory in proportion to the bytes.
pub fn read_trace(alloc: Global, bytes: &[u8]) -> Result<(History, Journals), TraceFault>
    requires { length bytes.now < 2 ^ 31 }
    ensures ok { IfOk result (λ x. bytes.now ≡ trace_text (given x.0.setup) x.0.entries (events_of x.1)) }
    ensures within { IfOk result (λ x. IsWithin (given x.0.setup) x.0.entries (events_of x.1)) }
    ensures bad { IfErr result (λ fault. IfBadLine fault (IsBadLine bytes.now)) }
{
    let mut stage = Stage::Untitled;
    let mut rest = bytes;
    let mut number: u32 = 1;
    'lines: while let Some((line, tail)) = first_line(rest) {
        match read_next(alloc, &mut stage, line) {
            Ok(true) => {}
            Ok(false) => return Err(TraceFault::BadLine { number }),
            Err(_) => return Err(TraceFault::NoMemory),
        }
        rest = tail;
        number += 1;
    }
    match whole(stage, rest) {
        Some((history, journals)) => Ok((history, journals)),
        None => Err(TraceFault::BadLine { number }),
    }
}

// What was read, where nothing is left to read and nothing more may come.
#[tactic(auto, using(crate::proofs::Ends::open_some, crate::proofs::Ends::open_unless, crate::proofs::Ends::nothing))]
fn whole(stage: Stage, rest: &[u8]) -> Option<(History, Journals)>
    ensures some { IfSome result (λ x. (rest.now ≡ []) × (state_of stage ≡ Over (given x.0.setup) x.0.entries (events_of x.1))) }
    ensures none { IfNone result ((setup : Given) (entries : List Entry) (journals : List (List PlaceEvent))
        → state_of stage ≡ Over setup entries journals → rest.now ≡ [] → ⊥) }
{
    match stage {
        Stage::Over { history, journals } => {
            if rest.is_empty() {
                Some((history, journals))
            } else {
                None
            }
        }
        _ => None,
    }
}
