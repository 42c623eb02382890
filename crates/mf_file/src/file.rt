//! A disk over a file.
ghost use Rattle.std.specs.Prelude.{◌≡◌, ◌≤◌, ◌-◌, ◌+◌, ◌++◌, ℕ, List, [], length, min, take, drop};
ghost use Rattle.std.specs.Prelude.{true, false, IfOk, OnOk, OnErr, IsTrue, MatchResult, not, ◌∷◌};
ghost use Rattle.std.proofs.Common.{inl};
ghost use Rattle.mf_journal.specs.Crash.{Overlays, TornAt, ComesBy, IsLasting, Advances};
ghost use Rattle.mf_journal.specs.Calls.{after, counted, Fails};
ghost use Rattle.mf_journal.specs.Calls as call;
ghost use Rattle.mf_journal.specs.Memory.{IsImage, LeftSince, fresh, over, played, spliced};
ghost use Rattle.mf_journal.specs.Memory.{widened};
ghost use Rattle.mf_journal.specs.Images.{only_since, read_is_image};
ghost use Rattle.mf_file.specs.Calls.{flushed, made, pieces, put};
ghost use Rattle.mf_file.specs.File.{IsStored};

use crate::raw::RawFile;
use mf_journal::{Disk, Failed, History};
use mf_vault::Note;
use std::alloc::AllocError;

/// An open file, with its bytes in memory.
#[derive(Drop)]
pub struct FileDisk<F: RawFile> {
    pub(crate) file: F,
    pub(crate) bytes: Vec<u8>,
    pub(crate) dead: bool,
    pub(crate) history: Note<History>,
    ghost stands: { IsStored bytes.items dead history.value (F.calls file) },
}

/// Fills up with zeros to a length.
fn widen(bytes: &mut Vec<u8>, end: usize) -> Result<(), AllocError>
    ensures bytes { OnOk result (bytes.new.items ≡ widened end bytes.old.items) }
    ensures err { OnErr result (bytes.new.items ≡ bytes.old.items) }
{
    if end <= bytes.len() {
        return Ok(());
    }
    bytes.try_reserve(end - bytes.len())?;
    bytes.resize(end, 0)?;
    Ok(())
}

/// Writes over what is there.
fn splice(list: &mut Vec<u8>, at: usize, bytes: &[u8])
    requires { at + length bytes.now ≤ length list.old.items }
    ensures { list.new.items ≡ spliced at bytes.now list.old.items }
{
    list[at..at + bytes.len()].copy_from_slice(bytes);
}

/// Writes in memory, or leaves all as it was. A file can't grow by a write of no bytes, so such a
/// write behind the end isn't done.
fn overwrite(list: &mut Vec<u8>, at: usize, bytes: &[u8]) -> Result<(), AllocError>
    ensures list { OnOk result (list.new.items ≡ over at bytes.now list.old.items) }
    ensures err { OnErr result (list.new.items ≡ list.old.items) }
{
    if bytes.is_empty() && at > list.len() {
        return Err(AllocError);
    }
    let Some(end) = at.checked_add(bytes.len()) else {
        return Err(AllocError);
    };
    widen(list, end)?;
    splice(list, at, bytes);
    Ok(())
}

/// Writes in memory unless the disk is dead, and answers whether it did not.
fn is_lost(list: &mut Vec<u8>, dead: bool, at: usize, bytes: &[u8]) -> bool
    ensures put { result ≡ false → list.new.items ≡ over at bytes.now list.old.items }
    ensures kept { result ≡ true → list.new.items ≡ list.old.items }
    ensures dead { result ≡ false → dead ≡ false }
{
    if dead {
        return true;
    }
    match overwrite(list, at, bytes) {
        Ok(()) => false,
        Err(_) => true,
    }
}

/// Writes to the file unless the write is lost, and answers whether it wasn't written.
fn write_fails<F: RawFile>(file: &mut F, lost: bool, at: u64, bytes: &[u8]) -> bool
    ensures asked { lost ≡ false
        → F.calls file.new ≡ put at bytes.now (not result) ∷ F.calls file.old }
    ensures kept { lost ≡ true → F.calls file.new ≡ F.calls file.old }
{
    if lost {
        return true;
    }
    !file.put(at, bytes)
}

/// Makes lasting what was written unless the disk is dead, and answers whether it didn't.
fn sync_fails<F: RawFile>(file: &mut F, dead: bool) -> bool
    ensures asked { result ≡ false → F.calls file.new ≡ flushed true ∷ F.calls file.old }
    ensures made { result ≡ true → made (F.calls file.new) ≡ made (F.calls file.old) }
    ensures dead { result ≡ false → dead ≡ false }
{
    if dead {
        return true;
    }
    !file.flush()
}

impl<F: RawFile> FileDisk<F> {
    ghost use Rattle.mf_file.specs.Told.{bytes_of, file_of, is_dead, history_of};

    /// A disk over a file that had these bytes.
    pub fn new(file: F, bytes: Vec<u8>) -> FileDisk<F>
        requires { F.calls file ≡ [] }
        ensures history { history_of result ≡ fresh bytes.items 0 }
        ensures bytes { bytes_of result ≡ bytes.items }
    {
        let history = Note::pick(&bytes);
        FileDisk {
            file,
            bytes,
            dead: false,
            history,
        }
    }

    /// A read gives what was written. No call failed so far where this isn't dead.
    pub fn tells(&self)
        ensures bytes { bytes_of self.now ≡
            played (history_of self.now).origin.first (history_of self.now).log.writes }
        ensures fine { is_dead self.now ≡ false → (history_of self.now).log.faults ≡ 0 }
        ensures asked { pieces (history_of self.now).log.writes
            ≡ made (F.calls (file_of self.now)) }
    {
        let _ = &self.dead;
    }
}

impl<F: RawFile> Disk for FileDisk<F> {
    ghost origin = { λ d. d.history.value.origin };

    ghost reads = { λ d. d.bytes.items };

    ghost leaves = { λ d. IsImage d.history.value.origin.first d.history.value.log.writes };

    ghost left_since = { λ d. LeftSince d.history.value };

    ghost log = { λ d. d.history.value.log };

    ghost read_is_left = { λ d. read_is_image d.history.value d.bytes.items d.stands.read };

    ghost now_counts = { λ d t c le now. inl now };

    ghost only_now = { λ d c left. only_since d.history.value c left };

    fn length(&mut self) -> Result<u64, Failed> {
        let history = Note::pick(&(self.dead, &self.history));
        self.history = history;
        if self.dead {
            return Err(Failed);
        }
        Ok(self.bytes.len() as u64)
    }

    fn read_at(&mut self, at: u64, buf: &mut [u8]) -> Result<usize, Failed> {
        let history = Note::pick(&(self.dead, &self.history));
        self.history = history;
        if self.dead {
            return Err(Failed);
        }
        let start = (at as usize).min(self.bytes.len());
        let (_, rest) = self.bytes.split_at(start);
        let n = rest.len().min(buf.len());
        buf[..n].copy_from_slice(&rest[..n]);
        Ok(n)
    }

    fn write_at(&mut self, at: u64, bytes: &[u8]) -> Result<(), Failed> {
        let lost = is_lost(&mut self.bytes, self.dead, at as usize, bytes);
        let fails = write_fails(&mut self.file, lost, at, bytes);
        let history = Note::pick(&(lost, fails, at, bytes, &self.history));
        if lost {
            self.dead = true;
            self.history = history;
            return Err(Failed);
        }
        if fails {
            self.dead = true;
            self.history = history;
            return Err(Failed);
        }
        self.history = history;
        Ok(())
    }

    fn sync(&mut self) -> Result<(), Failed> {
        let fails = sync_fails(&mut self.file, self.dead);
        let history = Note::pick(&(fails, &self.history));
        if fails {
            self.dead = true;
            self.history = history;
            return Err(Failed);
        }
        self.history = history;
        Ok(())
    }
}
