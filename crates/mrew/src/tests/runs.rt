//! Runs whose source or sink fails, and texts of the greatest length.

use super::{F, texts};
use crate::hooks::run_with_hooks;
use mau_bytes::{MemorySink, MemorySource};
use mau_session::Status;
use mau_terms::Text;
use std::alloc::Global;
use std::test::Fail;

/// The status of a run.
fn status_of(
    alloc: Global,
    words: &[Text],
    source: &mut MemorySource,
    sink: &mut MemorySink,
) -> Status {
    match run_with_hooks(alloc, words, source, sink) {
        Ok(status) => status,
        Err(_) => Status::NoMemory,
    }
}

#[test]
fn tells_of_faults_of_source_and_sink(rt: HostRuntime) -> Result<(), Fail> {
    let words = texts(rt.alloc(), &["run"])?;
    let text = format!(in rt.alloc(); "{F}match f(X:S, b) <=? f(a, b) .")?;
    let wanted = b"[1] module F\n[2] match in F\nMatcher 1\nX:S --> a\nNo more matches.\n";

    let bytes = text.as_bytes().to_vec(rt.alloc())?;
    let failing = [2u64].to_vec(rt.alloc())?;
    let mut source = MemorySource::new(bytes, failing);
    let mut sink = MemorySink::new(rt.alloc(), 1000, Vec::new(rt.alloc()))?;
    assert_eq!(rt;
        status_of(rt.alloc(), &words, &mut source, &mut sink),
        Status::ReadFault
    );
    assert!(rt; sink.bytes().is_empty(), "a read that fails writes nothing");

    let bytes = text.as_bytes().to_vec(rt.alloc())?;
    let failing = [1u64].to_vec(rt.alloc())?;
    let mut source = MemorySource::new(bytes, Vec::new(rt.alloc()));
    let mut sink = MemorySink::new(rt.alloc(), 1000, failing)?;
    assert_eq!(rt;
        status_of(rt.alloc(), &words, &mut source, &mut sink),
        Status::WriteFault
    );
    assert!(rt; sink.bytes().is_empty(), "the first write fails");

    let bytes = text.as_bytes().to_vec(rt.alloc())?;
    let mut source = MemorySource::new(bytes, Vec::new(rt.alloc()));
    let mut sink = MemorySink::new(rt.alloc(), wanted.len() - 1, Vec::new(rt.alloc()))?;
    assert_eq!(rt;
        status_of(rt.alloc(), &words, &mut source, &mut sink),
        Status::WriteFault
    );
    assert_eq!(rt; sink.bytes(), &wanted[..wanted.len() - 1]);
    Ok(())
}

#[test]
fn reads_texts_up_to_the_limit(rt: HostRuntime) -> Result<(), Fail> {
    let mut spaces = Vec::with_capacity(rt.alloc(), 16_777_217)?;
    for _i in 0..4096 {
        spaces.extend_from_slice(&[b' '; 4096])?;
    }
    let words = texts(rt.alloc(), &["run"])?;
    let copy = spaces.as_slice().to_vec(rt.alloc())?;
    let mut source = MemorySource::new(copy, Vec::new(rt.alloc()));
    let mut sink = MemorySink::new(rt.alloc(), 1000, Vec::new(rt.alloc()))?;
    assert_eq!(rt;
        status_of(rt.alloc(), &words, &mut source, &mut sink),
        Status::Done
    );
    assert!(rt; sink.bytes().is_empty(), "spaces have no answers");

    spaces.push(b' ')?;
    let mut source = MemorySource::new(spaces, Vec::new(rt.alloc()));
    assert_eq!(rt;
        status_of(rt.alloc(), &words, &mut source, &mut sink),
        Status::InputTooLong
    );
    assert!(rt; sink.bytes().is_empty(), "nothing is written");
    Ok(())
}
