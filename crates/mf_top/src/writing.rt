//! Writing an answer.

ghost use Rattle.std.specs.Prelude.{◌≡◌, ◌≤◌, ◌⊎◌, ℕ, length, take};
ghost use Rattle.std.specs.Io.KnownBytes.{Appends};
ghost use Rattle.mf_io.specs.Faults.{HasRisen};

use crate::Status;
use mf_io::{Sink, write_all};

/// Writes an answer, and says with which status the call ends.
pub fn write_answer<K: Sink>(sink: &mut K, answer: &[u8], whole: Status) -> Status
    ensures { ((result ≡ whole) × Appends (K.written sink.old) (K.written sink.new) answer.now
        × (K.faults sink.new ≡ K.faults sink.old))
        ⊎ ((result ≡ Status.SinkFault) × HasRisen (K.faults sink.old) (K.faults sink.new)
        × (n : ℕ) × (n ≤ length answer.now)
        × Appends (K.written sink.old) (K.written sink.new) (take n answer.now)) }
{
    match write_all(sink, answer) {
        Ok(()) => whole,
        Err(_) => Status::SinkFault,
    }
}
