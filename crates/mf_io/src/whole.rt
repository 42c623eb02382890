//! Reading a source to its end, and writing a whole list of bytes.
ghost use Rattle.std.specs.Prelude.{◌≡◌, ℕ, ◌≤◌, length, take, IfOk, IfErr, OnOk, OnErr, vec_len};
ghost use Rattle.std.specs.Io.KnownBytes.{Consumes, Appends, IsAtEnd};
ghost use Rattle.mf_io.specs.Faults.{HasRisen, CountsFailure};
ghost use Rattle.mf_io.specs.ReadAll.{LeavesRefused};
ghost use Rattle.mf_io.specs.declared.whole.ReadAll.TheVariants.{Fault, Memory};

use super::{Failed, Sink, Source};
use std::alloc::{AllocError, Global};

/// How many bytes one read asks for at most.
const PIECE: usize = 4096;

/// Why a source wasn't read to its end.
#[derive(Clone, Copy)]
pub enum ReadAll {
    /// A read failed.
    Fault,
    /// The source has more bytes than the limit.
    TooLong,
    /// Memory ran out.
    Memory,
}

impl From<Failed> for ReadAll {
    ghost from_gives = { λ _ e. e ≡ Fault };

    fn from(_failed: Failed) -> ReadAll {
        ReadAll::Fault
    }
}

impl From<AllocError> for ReadAll {
    ghost from_gives = { λ _ e. e ≡ Memory };

    fn from(_error: AllocError) -> ReadAll {
        ReadAll::Memory
    }
}

/// Reads a source to its end, which has to come within `limit` bytes.
///
/// # Errors
/// `Fault` where a read failed, and then the source's count has risen; `TooLong` exactly where one
/// byte more than the limit was read, and no read is made after that; `Memory` where memory ran
/// out.
pub fn read_all<S: Source>(alloc: Global, source: &mut S, limit: usize) -> Result<Vec<u8>, ReadAll>
    ensures within { IfOk result (λ text. vec_len text ≤ limit) }
    ensures bytes { IfOk result (λ text.
        Consumes (S.left source.old) (S.left source.new) text.items) }
    ensures end { OnOk result (IsAtEnd (S.left source.new)) }
    ensures count { OnOk result (S.faults source.new ≡ S.faults source.old) }
    ensures refused { IfErr result (λ e. LeavesRefused e limit (S.left source.old)
        (S.left source.new) (S.faults source.old) (S.faults source.new)) }
{
    let mut text = Vec::new(alloc);
    let mut buf = [0u8; PIECE];
    loop {
        let room = limit - text.len();
        let ask = room.min(PIECE - 1) + 1;
        let n = source.read(&mut buf[..ask])?;
        if n == 0 {
            return Ok(text);
        }
        if n > room {
            return Err(ReadAll::TooLong);
        }
        text.extend_from_slice(&buf[..n])?;
    }
}

/// Writes all the bytes. It takes no memory.
///
/// # Errors
/// `Failed` where a write failed: the sink's count has risen, and a front of the bytes was written.
pub fn write_all<K: Sink>(sink: &mut K, bytes: &[u8]) -> Result<(), Failed>
    ensures ok { OnOk result (Appends (K.written sink.old) (K.written sink.new) bytes.now) }
    ensures failed { OnErr result ((n : ℕ) × (n ≤ length bytes.now)
        × Appends (K.written sink.old) (K.written sink.new) (take n bytes.now)) }
    ensures count { CountsFailure (K.faults sink.old) (K.faults sink.new) result }
{
    let mut done = 0;
    while done < bytes.len() {
        done += sink.write(&bytes[done..])?;
    }
    Ok(())
}
