//! The top call.
ghost use Rattle.std.specs.Prelude.{◌≡◌, ◌≤◌, ◌↔◌, ◌⊎◌, ℕ, List, length, take, true, false, All, IfOk, IfErr, IsErrOf};
ghost use Rattle.std.specs.Io.KnownBytes.{prepend_known, append_known};
ghost use Rattle.mau_bytes.specs.Faults.{Rose};
ghost use Rattle.mau_formula.specs.Operators.{operators};
ghost use Rattle.mau_built_ins.specs.NativeNumerals.{GivesNumerals};
ghost use Rattle.mau_session.specs.Run.{IsRead, IsRun};

use crate::meaning::Meaning;
use crate::transcript::transcript_of;
use mau_bytes::{ReadEnd, Sink, Source, read_all, write_all};
use mau_formula::HookTable;
use mau_terms::Text;
use std::alloc::Global;

/// How a run ended.
#[derive(Clone, Copy, Debug, PartialEq, Eq)]
pub enum Status {
    /// The transcript is out, and nothing in it is a refusal.
    Done,
    /// The transcript is out, and something in it is a refusal.
    Refused,
    /// The words of the command line have no meaning, or one that is not answered yet.
    Usage,
    /// A read failed.
    ReadFault,
    /// A write failed.
    WriteFault,
    /// There was not enough memory.
    NoMemory,
    /// The text has more than 16,777,216 bytes.
    InputTooLong,
}

impl Status {
    ghost use Rattle.std.specs.Prelude.{◌≡◌};
    ghost use Rattle.mau_session.specs.Statuses.{number_of_status};

    /// The number that the program ends with, from 0 to 6.
    pub fn number(self) -> u8
        ensures { result ≡ number_of_status self }
    {
        match self {
            Status::Done => 0,
            Status::Refused => 1,
            Status::Usage => 2,
            Status::ReadFault => 3,
            Status::WriteFault => 4,
            Status::NoMemory => 5,
            Status::InputTooLong => 6,
        }
    }
}

/// Does all that the program does. `words` are those of the command line without the program's name. The text is
/// read to its end, its transcript is made whole, and then it is written. `hooks` are the native operators.
///
/// `Status::Usage` comes exactly where the words ask for no session, before anything is read or written;
/// `ReadFault` and `WriteFault` only where a read or a write failed; `InputTooLong` exactly where more than
/// 16,777,216 bytes were read; `NoMemory` where memory was wanting, and then nothing is written.
pub fn run<S: Source, K: Sink>(
    alloc: Global,
    hooks: &HookTable,
    words: &[Text],
    source: &mut S,
    sink: &mut K,
) -> Status
    requires { All GivesNumerals (operators hooks.now) }
    ensures run { IsRun (operators hooks.now) words.now (S.faults source.old) (S.faults source.new) (K.faults sink.old) (K.faults sink.new)
        (S.left source.old) (S.left source.new) (K.written sink.old) (K.written sink.new) result }
{
    match Meaning::of(words) {
        Some(Meaning::Run(limit)) => match read_text(alloc, source) {
            Err(status) => status,
            Ok(text) => match transcript_of(alloc, hooks, limit, &text) {
                Err(_) => Status::NoMemory,
                Ok((bytes, is_refused)) => write_answers(sink, &bytes, is_refused),
            },
        },
        _ => Status::Usage,
    }
}

/// Reads the whole text.
fn read_text<S: Source>(alloc: Global, source: &mut S) -> Result<Vec<u8>, Status>
    ensures read { IfOk result (λ text. IsRead (S.left source.old) (S.left source.new) text.items) }
    ensures causes { IfErr result (λ s. (s ≡ Status.ReadFault) ⊎ (s ≡ Status.InputTooLong) ⊎ (s ≡ Status.NoMemory)) }
    ensures fault { IsErrOf result Status.ReadFault → Rose (S.faults source.old) (S.faults source.new) }
    ensures taken { IfErr result (λ s. (bytes : List ℕ) × (S.left source.old ≡ prepend_known bytes (S.left source.new)) × (length bytes ≤ 16777217)
        × ((s ≡ Status.InputTooLong) ↔ (length bytes ≡ 16777217))) }
{
    match read_all(alloc, source, 16_777_216) {
        Ok(text) => Ok(text),
        Err(ReadEnd::Fault) => Err(Status::ReadFault),
        Err(ReadEnd::TooLong) => Err(Status::InputTooLong),
        Err(ReadEnd::NoMemory) => Err(Status::NoMemory),
    }
}

/// Writes all answers.
fn write_answers<K: Sink>(sink: &mut K, bytes: &[u8], is_refused: bool) -> Status
    ensures causes { (result ≡ Status.Done) ⊎ (result ≡ Status.Refused) ⊎ (result ≡ Status.WriteFault) }
    ensures done { result ≡ Status.Done → (is_refused ≡ false) × (K.written sink.new ≡ append_known (K.written sink.old) bytes.now) }
    ensures refused { result ≡ Status.Refused → (is_refused ≡ true) × (K.written sink.new ≡ append_known (K.written sink.old) bytes.now) }
    ensures fault { result ≡ Status.WriteFault → Rose (K.faults sink.old) (K.faults sink.new) }
    ensures prefix { result ≡ Status.WriteFault → (n : ℕ) × (n ≤ length bytes.now) × (K.written sink.new ≡ append_known (K.written sink.old) (take n bytes.now)) }
{
    match write_all(sink, bytes) {
        Err(_) => Status::WriteFault,
        Ok(()) => {
            if is_refused {
                Status::Refused
            } else {
                Status::Done
            }
        }
    }
}
