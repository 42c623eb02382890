//! Opening a file of the system.
ghost use Rattle.std.specs.Prelude.{◌≡◌, IfOk};
ghost use Rattle.mf_journal.specs.Memory.{fresh};
ghost use Rattle.mf_file.specs.Told.{bytes_of, history_of};

use crate::file::FileDisk;
use crate::raw::Host;
use std::alloc::AllocError;
use std::fs::{File, OpenOptions, TryLockError};
use std::io::{self, Read};
use std::path::PathBuf;

/// Why a file wasn't opened.
#[derive(Clone, Copy)]
pub enum FileFault {
    Io(io::Error),
    /// Another handle has the file.
    Busy,
    /// It is a folder, or something else that isn't a file.
    NotFile,
    Memory,
}

impl From<io::Error> for FileFault {
    fn from(error: io::Error) -> FileFault {
        FileFault::Io(error)
    }
}

impl From<AllocError> for FileFault {
    fn from(_error: AllocError) -> FileFault {
        FileFault::Memory
    }
}

/// Makes the name of a new file lasting.
fn sync_folder(rt: &HostRuntime, path: &str) -> Result<(), FileFault> {
    let mut folder = PathBuf::from_str(rt.alloc(), path)?;
    folder.pop();
    if folder.as_str().is_empty() {
        File::open(rt, ".")?.sync_all()?;
    } else {
        File::open(rt, folder.as_str())?.sync_all()?;
    }
    Ok(())
}

/// Opens a file, or makes it, for this handle alone. What it has is made lasting, and read.
pub fn open(rt: &HostRuntime, path: &str) -> Result<FileDisk<Host>, FileFault>
    ensures { IfOk result (λ d. history_of d ≡ fresh (bytes_of d) 0) }
{
    let mut file = OpenOptions::new()
        .read(true)
        .write(true)
        .create(true)
        .open(rt, path)?;
    if !file.metadata()?.is_file() {
        return Err(FileFault::NotFile);
    }
    match file.try_lock() {
        Ok(()) => {}
        Err(TryLockError::WouldBlock) => return Err(FileFault::Busy),
        Err(TryLockError::Error(e)) => return Err(FileFault::Io(e)),
    }
    file.sync_all()?;
    sync_folder(rt, path)?;
    let mut bytes = Vec::new(rt.alloc());
    file.read_to_end(&mut bytes)?;
    Ok(FileDisk::new(Host::new(file), bytes))
}
