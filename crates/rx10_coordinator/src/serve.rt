// A session over any source and sink, with a log or without one.
ghost use Rattle.std.specs.Prelude.{◌≡◌, ◌≤◌, ◌++◌, ◌∷◌, [], ℕ, List, Option};
ghost use Rattle.rx_base.specs.Outside.{Rose};
ghost use Rattle.rx10_coordinator.specs.declared.status.Status.TheVariants.{ReadFault, NoMemory as NoRoom, LogFault};
ghost use Rattle.rx10_coordinator.specs.Serving.{Served};
ghost use Rattle.rx10_coordinator.specs.Log.{Logged};
ghost use Rattle.rx10_coordinator.specs.Inside.Logging.{OrElse};
ghost use Rattle.rx10_coordinator.specs.Inside.Desk.{LinesAnswered, Breaks};

use crate::desk::Desk;
use crate::log::{Log, NoLog};
use crate::received::Received;
use crate::status::Status;
use rx_base::{Failed, NoMemory, Sink, Source, write_all};
use std::alloc::Global;

// How many bytes are read at once.
const CHUNK: usize = 65_536;

/// Serves the lines of the input until its end. docs/coordinator.md states each line and each reply.
pub fn serve<S: Source, K: Sink>(alloc: Global, places: u8, input: &mut S, out: &mut K) -> Status
    requires { (1 ≤ places) × (places ≤ 16) }
    // The theorem: what is written is the text of a session of what is read.
    ensures served { (result ≡ NoRoom → ⊥) → Served places (S.left input.old) (S.left input.new)
        (K.written out.old) (K.written out.new) (K.faults out.old) (K.faults out.new) result }
    ensures read_fault { result ≡ ReadFault → Rose (S.faults input.old) (S.faults input.new) }
    // Memory runs out before anything is read or written, or it does not end the session.
    ensures no_memory { result ≡ NoRoom → (input.new ≡ input.old) × (out.new ≡ out.old) }
    ensures no_log { result ≡ LogFault → ⊥ }
{
    match Desk::open(alloc, places, Log::none(alloc)) {
        Ok(mut desk) => {
            desk.greet(out, places);
            let mut received = Received::none(alloc);
            let mut log = NoLog;
            serve_desk(&mut desk, &mut received, input, out, &mut log)
        }
        Err(NoMemory) => Status::NoMemory,
    }
}

/// The same with a log, to which the line of each entry is written before its reply is told.
pub fn serve_logged<S: Source, K: Sink, L: Sink>(
    alloc: Global,
    places: u8,
    input: &mut S,
    out: &mut K,
    log: &mut L,
) -> Status
    requires { (1 ≤ places) × (places ≤ 16) }
    // The theorem: what is written is the text of a session, and what is appended to the log is the lines of its entries.
    ensures served { (result ≡ NoRoom → ⊥) → Logged places (S.left input.old) (S.left input.new)
        (K.written out.old) (K.written out.new) (L.written log.old) (L.written log.new)
        (K.faults out.old) (K.faults out.new) (L.faults log.old) (L.faults log.new) result }
    ensures read_fault { result ≡ ReadFault → Rose (S.faults input.old) (S.faults input.new) }
    ensures no_memory { result ≡ NoRoom → (input.new ≡ input.old) × (out.new ≡ out.old) × (log.new ≡ log.old) }
{
    match Desk::open(alloc, places, Log::kept(alloc)) {
        Ok(mut desk) => {
            desk.greet(out, places);
            let mut received = Received::none(alloc);
            serve_desk(&mut desk, &mut received, input, out, log)
        }
        Err(NoMemory) => Status::NoMemory,
    }
}

// Writes the replies, reads on and answers until the end of the input, or until a write fails.
fn serve_desk<S: Source, K: Sink, L: Sink>(
    desk: &mut Desk,
    received: &mut Received,
    input: &mut S,
    out: &mut K,
    log: &mut L,
) -> Status
    requires { (p : ℕ) × (w : Option (List ℕ)) × (f : ℕ) × (x : Option (List ℕ)) × (h : ℕ)
        × LinesAnswered p w f (K.written out.old) (K.faults out.old) x h (L.written log.old) (L.faults log.old) desk.old received.old [] }
    ensures served { (p : ℕ) (w : Option (List ℕ)) (f : ℕ) (x : Option (List ℕ)) (h : ℕ)
        → LinesAnswered p w f (K.written out.old) (K.faults out.old) x h (L.written log.old) (L.faults log.old) desk.old received.old []
        → Logged p (S.left input.old) (S.left input.new) w (K.written out.new) x (L.written log.new)
        f (K.faults out.new) h (L.faults log.new) result }
    ensures read_fault { result ≡ ReadFault → Rose (S.faults input.old) (S.faults input.new) }
    ensures room { result ≡ NoRoom → ⊥ }
{
    let mut chunk = [0u8; CHUNK];
    'chunks: for _ in 0..u64::MAX {
        if !desk.write(out) {
            return Status::WriteFault;
        }
        match input.read(&mut chunk) {
            Ok(count) => {
                if count == 0 {
                    return Status::Done;
                }
                match take_all(desk, received, out, log, &chunk[..count]) {
                    Ok(()) => {}
                    Err(Failed) => {
                        // The replies to what stands in the log are told all the same.
                        let _ = desk.write(out);
                        return Status::LogFault;
                    }
                }
            }
            Err(Failed) => return Status::ReadFault,
        }
    }
    if !desk.write(out) {
        return Status::WriteFault;
    }
    Status::Done
}

// Takes bytes in.
fn take_all<K: Sink, L: Sink>(
    desk: &mut Desk,
    received: &mut Received,
    out: &mut K,
    log: &mut L,
    bytes: &[u8],
) -> Result<(), Failed>
    requires { (p : ℕ) × (w : Option (List ℕ)) × (f : ℕ) × (x : Option (List ℕ)) × (h : ℕ) × (given : List ℕ)
        × LinesAnswered p w f (K.written out.old) (K.faults out.old) x h (L.written log.old)
        (L.faults log.old) desk.old received.old given }
    ensures { (p : ℕ) (w : Option (List ℕ)) (f : ℕ) (x : Option (List ℕ)) (h : ℕ) (given : List ℕ)
        → LinesAnswered p w f (K.written out.old) (K.faults out.old) x h (L.written log.old) (L.faults log.old) desk.old received.old given
        → OrElse result
        (LinesAnswered p w f (K.written out.new) (K.faults out.new) x h (L.written log.new) (L.faults log.new)
        desk.new received.new (given ++ bytes.now))
        (Breaks p w f (K.written out.new) (K.faults out.new) x h (L.written log.new) (L.faults log.new)
        desk.new (given ++ bytes.now)) }
{
    'bytes: for i in 0..bytes.len() {
        match take(desk, received, out, log, bytes[i]) {
            Ok(()) => {}
            Err(Failed) => return Err(Failed),
        }
    }
    Ok(())
}

// Takes a byte in, which may end a line.
fn take<K: Sink, L: Sink>(
    desk: &mut Desk,
    received: &mut Received,
    out: &mut K,
    log: &mut L,
    byte: u8,
) -> Result<(), Failed>
    requires { (p : ℕ) × (w : Option (List ℕ)) × (f : ℕ) × (x : Option (List ℕ)) × (h : ℕ) × (given : List ℕ)
        × LinesAnswered p w f (K.written out.old) (K.faults out.old) x h (L.written log.old)
        (L.faults log.old) desk.old received.old given }
    ensures { (p : ℕ) (w : Option (List ℕ)) (f : ℕ) (x : Option (List ℕ)) (h : ℕ) (given : List ℕ)
        → LinesAnswered p w f (K.written out.old) (K.faults out.old) x h (L.written log.old) (L.faults log.old) desk.old received.old given
        → OrElse result
        (LinesAnswered p w f (K.written out.new) (K.faults out.new) x h (L.written log.new) (L.faults log.new)
        desk.new received.new (given ++ byte ∷ []))
        (Breaks p w f (K.written out.new) (K.faults out.new) x h (L.written log.new) (L.faults log.new)
        desk.new (given ++ byte ∷ [])) }
{
    if byte == b'\n' {
        match desk.answer(out, log, received) {
            Ok(()) => {
                received.clear();
                Ok(())
            }
            Err(Failed) => Err(Failed),
        }
    } else {
        received.push(byte);
        Ok(())
    }
}

/// Writes a text.
pub(crate) fn print<K: Sink>(out: &mut K, text: &[u8]) -> Status {
    match write_all(out, text) {
        Ok(()) => Status::Done,
        Err(Failed) => Status::WriteFault,
    }
}
