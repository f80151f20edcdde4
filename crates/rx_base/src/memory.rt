// A source and a sink in memory, which fail at the calls that are named.
ghost use Rattle.std.specs.Prelude.{◌≡◌, ◌↔◌, ◌⊎◌, ◌+◌, ◌-◌, ◌^◌, ◌<◌, min, [], ◌++◌, length, take, drop, Some, IfOk, OnOk, OnErr};
ghost use Rattle.std.specs.Prelude.{IsErr, IsTrue, Contains};
ghost use Rattle.std.specs.Io.{ReadsAtMost, WritesAtMost};
ghost use Rattle.std.specs.Io.KnownBytes.{ReadConsumes, WriteAppends};
ghost use Rattle.rx_base.specs.Outside.{FailureIsCounted, TakesOne};

use crate::{Failed, NoMemory, Sink, Source};
use std::alloc::Global;
use std::marker::Model;

/// Bytes in memory. A call fails exactly where its number, from 0, is named.
#[derive(Drop)]
pub struct MemSource {
    bytes: Vec<u8>,
    at: usize,
    fails: Vec<u32>,
    calls: u64,
    faults: u64,
}

impl Model for MemSource {
    ghost use Rattle.std.specs.Prelude.{◌≤◌, length, drop};
    ghost use Rattle.rx_base.specs.Memory.{Reading};

    ghost Value = { Reading };

    ghost view = { λ a. record { left = drop a.at a.bytes.items; fails = a.fails.items; calls = a.calls; faults = a.faults } };

    ghost invariant = { λ a. a.at ≤ length a.bytes.items };
}

impl MemSource {
    /// A source of these bytes, before its first call.
    pub fn open(alloc: Global, bytes: &[u8], fails: &[u32]) -> Result<MemSource, NoMemory>
        ensures { IfOk result (λ s. s ≡ record { left = bytes.now; fails = fails.now; calls = 0; faults = 0 }) }
    {
        Ok(MemSource {
            bytes: bytes.to_vec(alloc)?,
            at: 0,
            fails: fails.to_vec(alloc)?,
            calls: 0,
            faults: 0,
        })
    }
}

impl Source for MemSource {
    ghost left = { λ s. Some s.left };

    ghost faults = { λ s. s.faults };

    fn read(&mut self, buf: &mut [u8]) -> Result<usize, Failed>
        ensures bound { ReadsAtMost result buf.new }
        ensures bytes { ReadConsumes (Some self.old.left) (Some self.new.left) result buf.new }
        ensures cause { FailureIsCounted self.old.faults self.new.faults result }
        ensures exact { IsErr result ↔ Contains self.old.fails self.old.calls }
        ensures whole { IfOk result (λ n. n ≡ min (length self.old.left) (length buf.new)) }
        ensures faults { OnOk result (self.new.faults ≡ self.old.faults) }
        ensures counted { OnErr result (self.new.faults ≡ min (self.old.faults + 1) (2 ^ 64 - 1)) }
        ensures call { self.new.calls ≡ min (self.old.calls + 1) (2 ^ 64 - 1) }
        ensures fails { self.new.fails ≡ self.old.fails }
    {
        let call = self.calls;
        self.calls = call.saturating_add(1);
        if is_named(&self.fails, call) {
            self.faults = self.faults.saturating_add(1);
            return Err(Failed);
        }
        let count = fill(&self.bytes[self.at..], buf);
        self.at += count;
        Ok(count)
    }
}

/// Bytes in memory, up to a number of them. A call fails exactly where its number, from 0, is named,
/// or where nothing of a piece that is not empty fits.
#[derive(Drop)]
pub struct MemSink {
    bytes: Vec<u8>,
    room: usize,
    fails: Vec<u32>,
    calls: u64,
    faults: u64,
}

impl Model for MemSink {
    ghost use Rattle.std.specs.Prelude.{◌+◌, ◌≤◌, length, vec_capacity};
    ghost use Rattle.rx_base.specs.Memory.{Writing};

    ghost Value = { Writing };

    ghost view = { λ a. record { written = a.bytes.items; room = a.room; fails = a.fails.items; calls = a.calls; faults = a.faults } };

    ghost invariant = { λ a. length a.bytes.items + a.room ≤ vec_capacity a.bytes };
}

impl MemSink {
    /// An empty sink with room for this many bytes, which it takes here.
    pub fn open(alloc: Global, room: usize, fails: &[u32]) -> Result<MemSink, NoMemory>
        ensures { IfOk result (λ s. s ≡ record { written = []; room = room; fails = fails.now; calls = 0; faults = 0 }) }
    {
        Ok(MemSink {
            bytes: Vec::with_capacity(alloc, room)?,
            room,
            fails: fails.to_vec(alloc)?,
            calls: 0,
            faults: 0,
        })
    }

    /// The bytes that were written.
    pub fn written(&self) -> &[u8]
        ensures { result.now ≡ self.now.written }
    {
        &self.bytes
    }
}

impl Sink for MemSink {
    ghost written = { λ s. Some s.written };

    ghost faults = { λ s. s.faults };

    fn write(&mut self, bytes: &[u8]) -> Result<usize, Failed>
        ensures bound { WritesAtMost result bytes.now }
        ensures bytes { WriteAppends (Some self.old.written) (Some self.new.written) result bytes.now }
        ensures one { TakesOne result bytes.now }
        ensures cause { FailureIsCounted self.old.faults self.new.faults result }
        ensures exact { IsErr result ↔ (Contains self.old.fails self.old.calls ⊎ ((self.old.room ≡ 0) × (0 < length bytes.now))) }
        ensures whole { IfOk result (λ n. n ≡ min (length bytes.now) self.old.room) }
        ensures room { IfOk result (λ n. self.new.room + n ≡ self.old.room) }
        ensures room_kept { OnErr result (self.new.room ≡ self.old.room) }
        ensures faults { OnOk result (self.new.faults ≡ self.old.faults) }
        ensures counted { OnErr result (self.new.faults ≡ min (self.old.faults + 1) (2 ^ 64 - 1)) }
        ensures call { self.new.calls ≡ min (self.old.calls + 1) (2 ^ 64 - 1) }
        ensures fails { self.new.fails ≡ self.old.fails }
    {
        let call = self.calls;
        self.calls = call.saturating_add(1);
        if is_named(&self.fails, call) || (self.room == 0 && !bytes.is_empty()) {
            self.faults = self.faults.saturating_add(1);
            return Err(Failed);
        }
        let count = bytes.len().min(self.room);
        match self.bytes.extend_from_slice(&bytes[..count]) {
            Ok(()) => {
                self.room -= count;
                Ok(count)
            }
            Err(_) => unreachable!(),
        }
    }
}

// Whether a call's number is among those that are named.
fn is_named(fails: &[u32], call: u64) -> bool
    ensures { IsTrue result ↔ Contains fails.now call }
{
    fails.iter().any(|n| u64::from(*n) == call)
}

// Copies as much to the front of the buffer as there is and as fits.
fn fill(bytes: &[u8], buf: &mut [u8]) -> usize
    ensures count { result ≡ min (length bytes.now) (length buf.old) }
    ensures whole { bytes.now ≡ take result buf.new ++ drop result bytes.now }
    ensures end { result ≡ 0 → 0 < length buf.new → bytes.now ≡ [] }
{
    let count = bytes.len().min(buf.len());
    buf[..count].copy_from_slice(&bytes[..count]);
    count
}
