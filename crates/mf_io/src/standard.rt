//! A source over a std reader, and a sink over a std writer.
ghost use Rattle.std.specs.Prelude.{◌≡◌, ◌≤◌, IfOk};

use super::{Failed, Sink, Source};
use std::io::{Read, Write};

/// Reads from a std reader. It tells what is left where the reader does. Its count rises at each
/// error of the reader, up to the greatest u64.
#[derive(Drop)]
pub struct StdSource<T> {
    inner: T,
    faults: u64,
}

impl<T: Read> StdSource<T> {
    /// A source of what `inner` gives, without a fault so far.
    pub fn new(inner: T) -> Self
        ensures left { ⟦<StdSource<T> as Source>⟧.left result ≡ T.remaining inner }
        ensures faults { ⟦<StdSource<T> as Source>⟧.faults result ≡ 0 }
    {
        StdSource { inner, faults: 0 }
    }
}

impl<T: Read> Source for StdSource<T> {
    ghost left = { λ s. T.remaining s.inner };

    ghost faults = { λ s. s.faults };

    fn read(&mut self, buf: &mut [u8]) -> Result<usize, Failed> {
        match self.inner.read(buf) {
            Ok(n) => Ok(n),
            Err(_) => {
                self.faults = self.faults.saturating_add(1);
                Err(Failed)
            }
        }
    }
}

/// Writes to a std writer. It tells what was written where the writer does. Its count rises at each
/// error of the writer, and where the writer takes nothing of a piece, up to the greatest u64.
#[derive(Drop)]
pub struct StdSink<T> {
    inner: T,
    faults: u64,
}

impl<T: Write> StdSink<T> {
    /// A sink that writes to `inner`, without a fault so far.
    pub fn new(inner: T) -> Self
        ensures written { ⟦<StdSink<T> as Sink>⟧.written result ≡ T.contents inner }
        ensures faults { ⟦<StdSink<T> as Sink>⟧.faults result ≡ 0 }
    {
        StdSink { inner, faults: 0 }
    }
}

impl<T: Write> Sink for StdSink<T> {
    ghost written = { λ s. T.contents s.inner };

    ghost faults = { λ s. s.faults };

    fn write(&mut self, piece: &[u8]) -> Result<usize, Failed> {
        match self.inner.write(piece) {
            Ok(n) if n > 0 || piece.is_empty() => Ok(n),
            _ => {
                self.faults = self.faults.saturating_add(1);
                Err(Failed)
            }
        }
    }
}

#[cfg(test)]
mod tests {
    use super::*;
    use std::io;
    use std::io::{Error, ErrorKind};

    /// Moves two bytes, then fails, then moves nothing.
    #[derive(Drop)]
    struct Flaky {
        calls: u32,
    }

    impl Flaky {
        fn call(&mut self, room: usize) -> io::Result<usize>
            ensures { IfOk result (λ n. n ≤ room) }
        {
            self.calls = self.calls.saturating_add(1);
            match self.calls {
                1 => Ok(room.min(2)),
                2 => Err(Error::from(ErrorKind::Other)),
                _ => Ok(0),
            }
        }
    }

    impl Read for Flaky {
        fn read(&mut self, buf: &mut [u8]) -> io::Result<usize> {
            let n = self.call(buf.len())?;
            buf[..n].fill(b'x');
            Ok(n)
        }
    }

    impl Write for Flaky {
        fn write(&mut self, buf: &[u8]) -> io::Result<usize> {
            self.call(buf.len())
        }

        fn flush(&mut self) -> io::Result<()> {
            Ok(())
        }
    }

    // What a read and a write move in turn, and the counts of faults behind them. A read that moves
    // nothing has reached the end, and a write that moves nothing has failed.
    static MOVED: [(Option<usize>, Option<usize>, u64, u64); 3] = [
        (Some(2), Some(2), 0, 0),
        (None, None, 1, 1),
        (Some(0), None, 1, 2),
    ];

    fn first_other() -> Option<usize> {
        let mut source = StdSource::new(Flaky { calls: 0 });
        let mut sink = StdSink::new(Flaky { calls: 0 });
        let mut buf = [0u8; 4];
        for (row, (read, write, read_faults, write_faults)) in MOVED.iter().enumerate() {
            if source.read(&mut buf).ok() != *read || sink.write(b"four").ok() != *write {
                return Some(row);
            }
            if source.faults != *read_faults || sink.faults != *write_faults {
                return Some(row);
            }
        }
        if buf == *b"xx\0\0" {
            None
        } else {
            Some(MOVED.len())
        }
    }

    #[test]
    fn adapters_answer_and_count_as_std_does(rt: HostRuntime) {
        assert_eq!(rt; first_other(), None);
    }
}
