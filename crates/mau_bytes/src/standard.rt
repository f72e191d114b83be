//! Sources and sinks over std's readers and writers. They count faults and tell no bytes.
ghost use Rattle.std.specs.Prelude.{◌≡◌, ◌≤◌, ◌<◌, length, take, IfOk, OnErr, is_err, if◌then◌else◌, None};
ghost use Rattle.std.specs.Io.KnownBytes.{ReadConsumes, Appends};
ghost use Rattle.mau_bytes.specs.Faults.{Rose, next_count};

use crate::{Failed, Sink, Source};
use std::io::{Read, Write};
use std::marker::Model;

/// A reader as a source. It counts the reader's errors and tells no bytes: that the reader gives the
/// bytes of the outside world in order is trusted.
#[derive(Drop)]
pub struct StdSource<R> {
    inner: R,
    faults: u64,
}

impl<R> Model for StdSource<R> {
    ghost use Rattle.mau_bytes.specs.Standard.{Standard};

    ghost Value = { Standard R };

    ghost view = { λ s. record { inner = s.inner; faults = s.faults } };
}

impl<R: Read> StdSource<R> {
    /// A source over this reader, with no fault so far. It takes no memory.
    pub fn new(inner: R) -> StdSource<R>
        ensures { result ≡ record { inner = inner; faults = 0 } }
    {
        StdSource { inner, faults: 0 }
    }
}

impl<R: Read> Source for StdSource<R> {
    ghost left = { λ _. None };

    ghost faults = { λ source. source.faults };

    /// One read of the reader. Each error of its is a fault, an interrupted call too.
    fn read(&mut self, buf: &mut [u8]) -> Result<usize, Failed>
        ensures bytes { ReadConsumes (R.remaining self.old.inner) (R.remaining self.new.inner)
            result buf.new }
        ensures within { IfOk result (λ n. n ≤ length buf.old) }
        ensures failed { OnErr result (Rose self.old.faults self.new.faults) }
        ensures counted { self.old.faults ≤ self.new.faults }
        ensures counts { self.new.faults
            ≡ (if is_err result then next_count self.old.faults else self.old.faults) }
    {
        match self.inner.read(buf) {
            Ok(count) => Ok(count),
            Err(_) => {
                self.faults = self.faults.saturating_add(1);
                Err(Failed)
            }
        }
    }
}

/// A writer as a sink. It counts the writer's errors and tells no bytes: that the writer takes them
/// to the outside world in order is trusted.
#[derive(Drop)]
pub struct StdSink<W> {
    inner: W,
    faults: u64,
}

impl<W> Model for StdSink<W> {
    ghost use Rattle.mau_bytes.specs.Standard.{Standard};

    ghost Value = { Standard W };

    ghost view = { λ s. record { inner = s.inner; faults = s.faults } };
}

impl<W: Write> StdSink<W> {
    /// A sink over this writer, with no fault so far. It takes no memory.
    pub fn new(inner: W) -> StdSink<W>
        ensures { result ≡ record { inner = inner; faults = 0 } }
    {
        StdSink { inner, faults: 0 }
    }
}

impl<W: Write> Sink for StdSink<W> {
    ghost written = { λ _. None };

    ghost faults = { λ sink. sink.faults };

    /// One write of the writer. Each error of its is a fault, and so is a write of nothing where there
    /// was something to write.
    fn write(&mut self, bytes: &[u8]) -> Result<usize, Failed>
        ensures bytes { IfOk result (λ n.
            Appends (W.contents self.old.inner) (W.contents self.new.inner) (take n bytes.now)) }
        ensures within { IfOk result (λ n. n ≤ length bytes.now) }
        ensures some { IfOk result (λ n. 0 < length bytes.now → 0 < n) }
        ensures failed { OnErr result (Rose self.old.faults self.new.faults) }
        ensures counted { self.old.faults ≤ self.new.faults }
        ensures counts { self.new.faults
            ≡ (if is_err result then next_count self.old.faults else self.old.faults) }
    {
        match self.inner.write(bytes) {
            Ok(count) if count > 0 || bytes.is_empty() => Ok(count),
            _ => {
                self.faults = self.faults.saturating_add(1);
                Err(Failed)
            }
        }
    }
}
