//! Sources and sinks in memory, which tell their bytes and fail at the calls that they were told.
ghost use Rattle.std.specs.Prelude.{◌≡◌, ◌≤◌, ◌<◌, ◌-◌, ◌++◌, ◌↔◌, ◌⊎◌, [], length, take, min, Contains, IfOk, OnErr, IsErr, is_err, if◌then◌else◌};
ghost use Rattle.mau_bytes.specs.Faults.{Rose, next_count};

use crate::{Failed, NoMemory, Sink, Source};
use std::alloc::Global;
use std::marker::Model;

/// The bytes of a vector as a source, which tells them. A call gives as many bytes as there is room
/// for.
#[derive(Drop)]
pub struct MemorySource {
    bytes: Vec<u8>,
    at: usize,
    failing: Vec<u64>,
    calls: u64,
    faults: u64,
}

impl Model for MemorySource {
    ghost use Rattle.std.specs.Prelude.{◌≤◌, length, drop};
    ghost use Rattle.mau_bytes.specs.Memory.{Input};

    ghost Value = { Input };

    ghost view = { λ s. record {
      left = drop s.at s.bytes.items;
      failing = s.failing.items;
      calls = s.calls;
      faults = s.faults;
    } };

    ghost invariant = { λ s. s.at ≤ length s.bytes.items };
}

impl MemorySource {
    /// A source of these bytes. Its reads fail at the calls that are listed, counted from 1; the count
    /// of calls stops at the greatest `u64`. It takes no memory.
    pub fn new(bytes: Vec<u8>, failing: Vec<u64>) -> MemorySource
        ensures { result
            ≡ record { left = bytes.items; failing = failing.items; calls = 0; faults = 0 } }
    {
        MemorySource {
            bytes,
            at: 0,
            failing,
            calls: 0,
            faults: 0,
        }
    }
}

impl Source for MemorySource {
    ghost use Rattle.std.specs.Prelude.{Some};

    ghost left = { λ source. Some source.left };

    ghost faults = { λ source. source.faults };

    fn read(&mut self, buf: &mut [u8]) -> Result<usize, Failed>
        ensures within { IfOk result (λ n. n ≡ min (length buf.old) (length self.old.left)) }
        ensures end { IfOk result (λ n. n ≡ 0 → 0 < length buf.old → self.new.left ≡ []) }
        ensures taken { IfOk result (λ n. self.old.left ≡ take n buf.new ++ self.new.left) }
        ensures fails { IsErr result ↔ Contains self.old.failing (next_count self.old.calls) }
        ensures failed { OnErr result (Rose self.old.faults self.new.faults) }
        ensures kept { OnErr result (self.new.left ≡ self.old.left) }
        ensures counted { self.old.faults ≤ self.new.faults }
        ensures counts { self.new.faults
            ≡ (if is_err result then next_count self.old.faults else self.old.faults) }
        ensures called { self.new.calls ≡ next_count self.old.calls }
        ensures same { self.new.failing ≡ self.old.failing }
    {
        self.calls = self.calls.saturating_add(1);
        if self.failing.contains(&self.calls) {
            self.faults = self.faults.saturating_add(1);
            return Err(Failed);
        }
        let rest = &self.bytes[self.at..];
        let count = rest.len().min(buf.len());
        buf[..count].copy_from_slice(&rest[..count]);
        self.at += count;
        Ok(count)
    }
}

/// A sink that keeps what is written, up to a capacity, and tells it. A call takes as many bytes as
/// fit.
#[derive(Drop)]
pub struct MemorySink {
    bytes: Vec<u8>,
    capacity: usize,
    failing: Vec<u64>,
    calls: u64,
    faults: u64,
}

impl Model for MemorySink {
    ghost use Rattle.std.specs.Prelude.{◌≤◌, vec_len, vec_capacity};
    ghost use Rattle.mau_bytes.specs.Memory.{Output};

    ghost Value = { Output };

    ghost view = { λ s. record {
      written = s.bytes.items;
      capacity = s.capacity;
      failing = s.failing.items;
      calls = s.calls;
      faults = s.faults;
    } };

    ghost invariant = { λ s. (vec_len s.bytes ≤ s.capacity) × (s.capacity ≤ vec_capacity s.bytes) };
}

impl MemorySink {
    /// An empty sink with memory for `capacity` bytes. Its writes fail at the calls that are listed,
    /// counted from 1, and those of at least one byte where the capacity is used up; the count of calls
    /// stops at the greatest `u64`.
    pub fn new(alloc: Global, capacity: usize, failing: Vec<u64>) -> Result<MemorySink, NoMemory>
        ensures { IfOk result (λ sink. sink ≡ record {
          written = [];
          capacity = capacity;
          failing = failing.items;
          calls = 0;
          faults = 0;
        }) }
    {
        let bytes = Vec::with_capacity(alloc, capacity)?;
        Ok(MemorySink {
            bytes,
            capacity,
            failing,
            calls: 0,
            faults: 0,
        })
    }

    /// What was written. It takes no memory.
    pub fn bytes(&self) -> &[u8]
        ensures { result.now ≡ self.now.written }
    {
        &self.bytes
    }
}

impl Sink for MemorySink {
    ghost use Rattle.std.specs.Prelude.{Some};

    ghost written = { λ sink. Some sink.written };

    ghost faults = { λ sink. sink.faults };

    fn write(&mut self, bytes: &[u8]) -> Result<usize, Failed>
        ensures within { IfOk result (λ n.
            n ≡ min (length bytes.now) (self.old.capacity - length self.old.written)) }
        ensures some { IfOk result (λ n. 0 < length bytes.now → 0 < n) }
        ensures appended { IfOk result (λ n.
            self.new.written ≡ self.old.written ++ take n bytes.now) }
        ensures fails { IsErr result ↔ (Contains self.old.failing (next_count self.old.calls)
            ⊎ ((self.old.capacity ≤ length self.old.written) × (0 < length bytes.now))) }
        ensures failed { OnErr result (Rose self.old.faults self.new.faults) }
        ensures kept { OnErr result (self.new.written ≡ self.old.written) }
        ensures counted { self.old.faults ≤ self.new.faults }
        ensures counts { self.new.faults
            ≡ (if is_err result then next_count self.old.faults else self.old.faults) }
        ensures called { self.new.calls ≡ next_count self.old.calls }
        ensures same { (self.new.failing ≡ self.old.failing)
            × (self.new.capacity ≡ self.old.capacity) }
    {
        self.calls = self.calls.saturating_add(1);
        let room = self.capacity - self.bytes.len();
        let is_full = room == 0 && !bytes.is_empty();
        if is_full || self.failing.contains(&self.calls) {
            self.faults = self.faults.saturating_add(1);
            return Err(Failed);
        }
        let count = bytes.len().min(room);
        if self.bytes.extend_from_slice(&bytes[..count]).is_err() {
            unreachable!();
        }
        Ok(count)
    }
}
