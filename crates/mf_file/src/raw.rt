//! A file as its calls, and one of the system.
ghost use Rattle.std.specs.Prelude.{◌≡◌, ℕ, List, [], ◌∷◌, Some, None};
ghost use Rattle.mf_file.specs.Calls.{flushed, put};
ghost use Rattle.mf_file.specs.declared.raw.Asked.{Asked};

use mf_vault::Note;
use std::fs::File;
use std::os::unix::fs::FileExt;

/// A call of a file, for contracts alone: a write at a place, or a sync, and whether it succeeded.
pub struct Asked {
    pub at: Option<u64>,
    pub bytes: [u8; 0],
    pub done: bool,
}

/// What is asked of a file. Each call is noted with its answer.
pub trait RawFile: Drop {
    // The calls so far, the newest first.
    ghost calls: { Self → List Asked };

    /// Writes all of these bytes, and answers whether it did.
    fn put(&mut self, at: u64, bytes: &[u8]) -> bool
        ensures { calls self.new ≡ put at bytes.now result ∷ calls self.old };

    /// Makes lasting what was written, and answers whether it did.
    fn flush(&mut self) -> bool
        ensures { calls self.new ≡ flushed result ∷ calls self.old };
}

/// An open file of the system.
#[derive(Drop)]
pub struct Host {
    file: File,
    trace: Note<[Asked; 0]>,
}

impl Host {
    ghost use Rattle.mf_file.specs.Calls.{trace_of};

    pub(crate) fn new(file: File) -> Host
        ensures { trace_of result ≡ [] }
    {
        let trace = Note::pick(&file);
        Host { file, trace }
    }
}

impl RawFile for Host {
    ghost calls = { λ h. h.trace.value };

    fn put(&mut self, at: u64, bytes: &[u8]) -> bool {
        let done = self.file.write_all_at(bytes, at).is_ok();
        let trace = Note::pick(&(done, at, bytes, &self.trace));
        self.trace = trace;
        done
    }

    fn flush(&mut self) -> bool {
        let done = self.file.sync_all().is_ok();
        let trace = Note::pick(&(done, &self.trace));
        self.trace = trace;
        done
    }
}
