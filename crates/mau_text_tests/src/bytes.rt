//! Sources that are read to their end, and sinks that are written: in memory, in small pieces, with faults, and over standard streams.
ghost use Rattle.std.specs.Prelude.{Some};

use mau_bytes::{
    Failed, MemorySink, MemorySource, ReadEnd, Sink, Source, StdSink, StdSource, read_all,
    write_all,
};
use std::alloc::Global;
use std::io::Cursor;
use std::process::Abort;
use std::test::Fail;

/// Gives one byte at a time.
#[derive(Drop)]
struct OneByOne {
    bytes: MemorySource,
}

impl Source for OneByOne {
    ghost left = { λ source. Some source.bytes.left };

    ghost faults = { λ source. source.bytes.faults };

    fn read(&mut self, buf: &mut [u8]) -> Result<usize, Failed> {
        let room = buf.len().min(1);
        self.bytes.read(&mut buf[..room])
    }
}

/// Takes two bytes at a time, and one where there is only one.
#[derive(Drop)]
struct TwoByTwo {
    bytes: MemorySink,
}

impl Sink for TwoByTwo {
    ghost written = { λ sink. Some sink.bytes.written };

    ghost faults = { λ sink. sink.bytes.faults };

    fn write(&mut self, bytes: &[u8]) -> Result<usize, Failed> {
        let room = bytes.len().min(2);
        self.bytes.write(&bytes[..room])
    }
}

/// What reading within a limit gives: some bytes, or an end.
type Read = (usize, Result<&'static [u8], ReadEnd>);

/// A source gives this within each limit, one behind the other.
fn gives<S: Source>(
    rt: &impl Abort,
    alloc: Global,
    source: &mut S,
    reads: &[Read],
) -> Result<(), Fail> {
    for (limit, wanted) in reads {
        assert!(rt; *limit <= 16777216);
        match read_all(alloc, source, *limit) {
            Ok(bytes) => assert_eq!(rt; Ok(bytes.as_slice()), *wanted, "{limit}"),
            Err(end) => assert_eq!(rt; Err(end), *wanted, "{limit}"),
        }
    }
    Ok(())
}

/// The calls at which a source of `Maude` in memory fails, and what it gives.
const READS: [(&[u64], &[Read]); 3] = [
    (&[], &[(5, Ok(b"Maude")), (0, Ok(b""))]),
    (&[], &[(4, Err(ReadEnd::TooLong))]),
    (&[2], &[(5, Err(ReadEnd::Fault)), (5, Ok(b""))]),
];

/// The same where it gives one byte at a time: what is past the limit is taken.
const ONE_BY_ONE: [(&[u64], &[Read]); 3] = [
    (&[], &[(16777216, Ok(b"Maude"))]),
    (&[], &[(2, Err(ReadEnd::TooLong)), (2, Ok(b"de"))]),
    (&[3], &[(9, Err(ReadEnd::Fault)), (9, Ok(b"ude"))]),
];

/// A source of `Maude` that fails at these calls.
fn maude(alloc: Global, failing: &[u64]) -> Result<MemorySource, Fail> {
    let bytes = b"Maude".to_vec(alloc)?;
    Ok(MemorySource::new(bytes, failing.to_vec(alloc)?))
}

#[test]
fn sources_are_read_to_their_end(rt: HostRuntime) -> Result<(), Fail> {
    for (failing, reads) in READS {
        let mut source = maude(rt.alloc(), failing)?;
        gives(&rt, rt.alloc(), &mut source, reads)?;
    }
    for (failing, reads) in ONE_BY_ONE {
        let bytes = maude(rt.alloc(), failing)?;
        gives(&rt, rt.alloc(), &mut OneByOne { bytes }, reads)?;
    }
    let mut source = StdSource::new(Cursor::new(b"Maude".as_slice()));
    gives(
        &rt,
        rt.alloc(),
        &mut source,
        &[(5, Ok(b"Maude")), (5, Ok(b""))],
    )
}

#[test]
fn a_long_source_is_read_in_pieces(rt: HostRuntime) -> Result<(), Fail> {
    let long = [7u8; 9000].to_vec(rt.alloc())?;
    let mut source = MemorySource::new(long, Vec::new(rt.alloc()));
    let read = read_all(rt.alloc(), &mut source, 9000)?;
    assert_eq!(rt; read.as_slice(), [7u8; 9000].as_slice());
    Ok(())
}

/// Some bytes, and whether a sink takes them all.
type Write = (&'static [u8], bool);

/// A sink takes these bytes, one after the other, or fails.
fn takes<K: Sink>(rt: &impl Abort, sink: &mut K, writes: &[Write]) {
    for (bytes, wanted) in writes {
        assert_eq!(rt; write_all(sink, bytes).is_ok(), *wanted, "{bytes:?}");
    }
}

const WHOLE: [Write; 4] = [(b"Mau", true), (b"", true), (b"de", false), (b"", true)];

const TWO_BY_TWO: [Write; 2] = [(b"Maude", false), (b"ude", true)];

/// In memory a sink takes what it has room for; one that fails at its second call has taken what the first one gave; and a write of 0
/// bytes by a standard stream is a fault.
#[test]
fn sinks_take_what_fits(rt: HostRuntime) -> Result<(), Fail> {
    let mut sink = MemorySink::new(rt.alloc(), 4, Vec::new(rt.alloc()))?;
    takes(&rt, &mut sink, &WHOLE);
    assert_eq!(rt; sink.bytes(), b"Maud".as_slice());

    let bytes = MemorySink::new(rt.alloc(), 9, [2].to_vec(rt.alloc())?)?;
    let mut sink = TwoByTwo { bytes };
    takes(&rt, &mut sink, &TWO_BY_TWO);
    assert_eq!(rt; sink.bytes.bytes(), b"Maude".as_slice());

    let mut room = [0u8; 4];
    let mut sink = StdSink::new(Cursor::new(room.as_mut_slice()));
    takes(&rt, &mut sink, &[(b"Maud", true), (b"e", false)]);
    assert_eq!(rt; room.as_slice(), b"Maud".as_slice());
    Ok(())
}
