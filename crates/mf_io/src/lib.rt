//! Bytes in and bytes out: what a program reads from and writes to, over memory or over std.
//!
//! A `Source` or `Sink` counts its faults: `Failed` comes only where the count rose. `read` answers
//! 0 at the end of the input alone. `read_all` reads at most `limit` + 1 bytes, and answers TooLong
//! where there were so many.
//!
//! After a `Failed` of `write_all` a front of the bytes was written. `read_all` alone takes memory.
//!
//! ```text
//! let mut source = StdSource::new(stdin);
//! let text = read_all(alloc, &mut source, 1_048_576)?;
//! write_all(&mut sink, b"end\n")?;
//! ```
//!
//! *Proved.* `read_all` and `write_all` give all bytes, with the causes of their refusals; the
//! memory source and sink are exact.
//!
//! *Only tested.* The adapters over std, by one test.
//!
//! *Neither.* What a terminal, file or pipe holds.
#![tactic(auto)]

ghost use Rattle.std.specs.Prelude.{◌≡◌, ℕ, ◌<◌, List, Option, IfOk, length};
ghost use Rattle.std.specs.Io.{ReadsAtMost, WritesAtMost};
ghost use Rattle.std.specs.Io.KnownBytes.{ReadConsumes, WriteAppends};
ghost use Rattle.mf_io.specs.Faults.{CountsFailure};

mod memory;
mod standard;
mod whole;

pub use memory::{MemorySink, MemorySource};
pub use standard::{StdSink, StdSource};
pub use whole::{ReadAll, read_all, write_all};

/// A read or a write failed, and the count of its source or sink has risen.
#[derive(Clone, Copy)]
pub struct Failed;

/// Gives bytes in order, piece by piece.
pub trait Source {
    // What reads will still give, where the source tells it.
    ghost left: { Self → Option (List ℕ) };

    // A count that rises where a read fails.
    ghost faults: { Self → ℕ };

    /// Puts the next bytes in front of `buf` and answers their number. For a `buf` that isn't
    /// empty, 0 says that the input has ended. A read that fails takes no byte.
    fn read(&mut self, buf: &mut [u8]) -> Result<usize, Failed>
        ensures bound { ReadsAtMost result buf.new }
        ensures bytes { ReadConsumes (left self.old) (left self.new) result buf.new }
        ensures count { CountsFailure (faults self.old) (faults self.new) result };
}

/// Takes bytes in order, piece by piece.
pub trait Sink {
    // What was written, where the sink tells it.
    ghost written: { Self → Option (List ℕ) };

    // A count that rises where a write fails.
    ghost faults: { Self → ℕ };

    /// Appends the first bytes of `piece` and answers their number, which is above 0 for a piece
    /// that isn't empty. A write that fails appends nothing.
    fn write(&mut self, piece: &[u8]) -> Result<usize, Failed>
        ensures bound { WritesAtMost result piece.now }
        ensures progress { IfOk result (λ n. 0 < length piece.now → 0 < n) }
        ensures bytes { WriteAppends (written self.old) (written self.new) result piece.now }
        ensures count { CountsFailure (faults self.old) (faults self.new) result };
}
