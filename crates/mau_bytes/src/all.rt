//! Reading to the end, and writing all.
ghost use Rattle.std.specs.Prelude.{◌≡◌, ◌≤◌, ◌<◌, ◌+◌, ◌↔◌, ℕ, List, length, take, IfOk, IfErr, OnOk, OnErr, IsErrOf};
ghost use Rattle.std.specs.Io.KnownBytes.{prepend_known, append_known, IsAtEnd};
ghost use Rattle.mau_bytes.specs.Faults.{Rose};

use crate::{Failed, ReadEnd, Sink, Source};
use std::alloc::Global;

/// How many bytes are asked for at once.
const PIECE: usize = 4096;

/// All bytes that are left in a source, to the end of the input, if they are at most `limit`, which
/// is at most 16,777,216.
///
/// `ReadEnd::Fault` comes only where a read failed, and the bytes before it are gone;
/// `ReadEnd::TooLong` exactly where `limit + 1` bytes were taken, and no more is read then;
/// `ReadEnd::NoMemory` where a buffer could not grow.
pub fn read_all<S: Source>(alloc: Global, source: &mut S, limit: usize) -> Result<Vec<u8>, ReadEnd>
    requires { limit ≤ 16777216 }

    ensures all { IfOk result (λ bytes.
        S.left source.old ≡ prepend_known bytes.items (S.left source.new)) }
    ensures end { OnOk result (IsAtEnd (S.left source.new)) }
    ensures within { IfOk result (λ bytes. length bytes.items ≤ limit) }

    // What was taken when the call gave up: limit + 1 bytes exactly where the answer is `TooLong`.
    ensures taken { IfErr result (λ e. (bytes : List ℕ)
        × (S.left source.old ≡ prepend_known bytes (S.left source.new))
        × (length bytes ≤ limit + 1)
        × ((e ≡ ReadEnd.TooLong) ↔ (length bytes ≡ limit + 1))) }

    ensures fault { IsErrOf result ReadEnd.Fault
        → Rose (S.faults source.old) (S.faults source.new) }
    ensures counted { S.faults source.old ≤ S.faults source.new }
{
    let mut bytes = Vec::new(alloc);
    let mut piece = [0u8; PIECE];
    loop {
        let room = (limit - bytes.len() + 1).min(PIECE);
        let count = source.read(&mut piece[..room])?;
        if count == 0 {
            return Ok(bytes);
        }
        if limit - bytes.len() < count {
            return Err(ReadEnd::TooLong);
        }
        if bytes.extend_from_slice(&piece[..count]).is_err() {
            return Err(ReadEnd::NoMemory);
        }
    }
}

/// Writes all of `bytes`. After `Failed`, which comes only where a write failed, a prefix of them is
/// out. It takes no memory.
pub fn write_all<K: Sink>(sink: &mut K, bytes: &[u8]) -> Result<(), Failed>
    ensures all { OnOk result (K.written sink.new ≡ append_known (K.written sink.old) bytes.now) }
    ensures prefix { OnErr result ((n : ℕ) × (n ≤ length bytes.now)
        × (K.written sink.new ≡ append_known (K.written sink.old) (take n bytes.now))) }
    ensures failed { OnErr result (Rose (K.faults sink.old) (K.faults sink.new)) }
    ensures counted { K.faults sink.old ≤ K.faults sink.new }
{
    let mut done = 0;
    while done < bytes.len() {
        done += sink.write(&bytes[done..])?;
    }
    Ok(())
}
