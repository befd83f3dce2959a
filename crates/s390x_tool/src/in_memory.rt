//! Sources and sinks in memory, whose calls fail where they are told to.
ghost use Rattle.std.specs.Prelude.{◌≡◌, ℕ, ◌<◌, ◌≤◌, ◌↔◌, [], List, length, take, drop, min, vec_len, vec_capacity, Contains, IsErr, IfOk, OnOk, OnErr, Some, ◌⊎◌};
ghost use Rattle.std.specs.Io.{ReadsAtMost, WritesAtMost};
ghost use Rattle.std.specs.Io.KnownBytes.{ReadConsumes, WriteAppends};
ghost use Rattle.s390x_tool.specs.Causes.{next_count, HasCause};
ghost use Rattle.s390x_tool.specs.InMemory.{SourceState, SinkState, takes};

use crate::ends::{Failed, Sink, Source};
use s390x_base::NoMemory;
use std::alloc::Global;
use std::marker::Model;

/// A source over bytes in memory.
#[derive(Drop)]
pub struct BytesSource {
    bytes: Vec<u8>,
    at: usize,
    fails: Vec<u64>,
    calls: u64,
    faults: u64,
}

impl Model for BytesSource {
    ghost Value = { SourceState };

    ghost view = { λ s. record { left = drop s.at s.bytes.items; fails = s.fails.items; calls = s.calls; faults = s.faults } };

    ghost invariant = { λ s. s.at ≤ vec_len s.bytes };
}

impl BytesSource {
    /// The source of these bytes. The calls that `fails` numbers, counted from 1, fail.
    pub fn new(bytes: Vec<u8>, fails: Vec<u64>) -> BytesSource
        ensures { result
            ≡ record { left = bytes.items; fails = fails.items; calls = 0; faults = 0 } }
    {
        BytesSource {
            bytes,
            at: 0,
            fails,
            calls: 0,
            faults: 0,
        }
    }
}

impl Source for BytesSource {
    ghost left = { λ s. Some s.left };

    ghost faults = { λ s. s.faults };

    /// Gives as many bytes as are left and have room.
    fn read(&mut self, buf: &mut [u8]) -> Result<usize, Failed>
        ensures bound { ReadsAtMost result buf.new }
        ensures bytes { ReadConsumes (Some self.old.left) (Some self.new.left) result buf.new }
        ensures cause { HasCause self.old.faults self.new.faults result }
        ensures fails { IsErr result ↔ Contains self.old.fails (next_count self.old.calls) }
        ensures count { IfOk result (λ n. n ≡ min (length buf.new) (length self.old.left)) }
        ensures same { self.new.fails ≡ self.old.fails }
        ensures calls { self.new.calls ≡ next_count self.old.calls }
        ensures faults { OnErr result (self.new.faults ≡ next_count self.old.faults) }
    {
        self.calls = self.calls.saturating_add(1);
        if self.fails.contains(&self.calls) {
            self.faults = self.faults.saturating_add(1);
            return Err(Failed);
        }
        let rest = &self.bytes[self.at..];
        let count = rest.len().min(buf.len());
        buf[..count].copy_from_slice(&rest[..count]);
        self.at += count;
        Ok(count)
    }
}

/// A sink in memory.
#[derive(Drop)]
pub struct BytesSink {
    bytes: Vec<u8>,
    room: usize,
    fails: Vec<u64>,
    most: usize,
    calls: u64,
    faults: u64,
}

impl Model for BytesSink {
    ghost Value = { SinkState };

    ghost view = { λ s. record { told = s.bytes.items; room = s.room; fails = s.fails.items; most = s.most; calls = s.calls; faults = s.faults } };

    ghost invariant = { λ s. (vec_len s.bytes ≤ s.room) × (s.room ≤ vec_capacity s.bytes) × (0 < s.most) };
}

impl BytesSink {
    /// A sink with room for so many bytes, taken here: its writes take no memory. A write takes at most `most` bytes.
    /// The calls that `fails` numbers, counted from 1, fail.
    pub fn new(
        alloc: Global,
        room: usize,
        fails: Vec<u64>,
        most: usize,
    ) -> Result<BytesSink, NoMemory>
        requires { 0 < most }
        ensures { IfOk result
            (λ s. s
            ≡ record {
              told = [];
              room = room;
              fails = fails.items;
              most = most;
              calls = 0;
              faults = 0;
            }) }
    {
        let Ok(bytes) = Vec::with_capacity(alloc, room) else {
            return Err(NoMemory);
        };
        Ok(BytesSink {
            bytes,
            room,
            fails,
            most,
            calls: 0,
            faults: 0,
        })
    }

    /// The bytes that it was told.
    pub fn told(&self) -> &[u8]
        ensures { result.now ≡ self.now.told }
    {
        self.bytes.as_slice()
    }
}

impl Sink for BytesSink {
    ghost told = { λ s. Some s.told };

    ghost faults = { λ s. s.faults };

    /// Takes at most `most` bytes, and at most the room that is left. Without room a piece that isn't empty fails.
    fn write(&mut self, piece: &[u8]) -> Result<usize, Failed>
        ensures bound { WritesAtMost result piece.now }
        ensures some { IfOk result (λ n. 0 < length piece.now → 0 < n) }
        ensures bytes { WriteAppends (Some self.old.told) (Some self.new.told) result piece.now }
        ensures cause { HasCause self.old.faults self.new.faults result }
        ensures fails { IsErr result ↔
            (Contains self.old.fails (next_count self.old.calls)
            ⊎ ((0 < length piece.now) × (length self.old.told ≡ self.old.room))) }
        ensures count { IfOk result (λ n. n ≡ takes self.old piece.now) }
        ensures same { self.new
            ≡ record self.old {
              told = self.new.told;
              calls = next_count self.old.calls;
              faults = self.new.faults;
            } }
        ensures faults { OnErr result (self.new.faults ≡ next_count self.old.faults) }
    {
        self.calls = self.calls.saturating_add(1);
        let left = self.room - self.bytes.len();
        if self.fails.contains(&self.calls) || (left == 0 && !piece.is_empty()) {
            self.faults = self.faults.saturating_add(1);
            return Err(Failed);
        }
        let count = piece.len().min(self.most).min(left);
        self.bytes.extend_from_slice(&piece[..count]).unwrap();
        Ok(count)
    }
}
