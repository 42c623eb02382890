//! A disk in memory, which fails from a chosen call on and can be made to crash.
ghost use Rattle.std.specs.Prelude.{◌≡◌, ◌≤◌, ◌-◌, ◌+◌, ◌^◌, ◌↔◌, ◌++◌, ℕ, List, [], length, min};
ghost use Rattle.std.specs.Prelude.{take, drop, true, IfOk, OnOk, IsTrue, MatchResult};
ghost use Rattle.std.proofs.Common.{inl};
ghost use Rattle.mf_journal.specs.Crash.{Overlays, TornAt, ComesBy, IsLasting, Advances};
ghost use Rattle.mf_journal.specs.Calls.{after, counted, Fails};
ghost use Rattle.mf_journal.specs.Calls as call;
ghost use Rattle.mf_journal.specs.Memory.{IsImage, IsStopped, LeftSince, IsStored, fresh, left_by};
ghost use Rattle.mf_journal.specs.Images.{only_since, read_is_image};

use crate::contents::Contents;
use crate::disk::{Disk, Failed};
use crate::history::History;
use mf_vault::Note;
use std::alloc::Global;

/// A disk in memory.
#[derive(Drop)]
pub struct MemoryDisk {
    pub(crate) contents: Contents,
    pub(crate) stop: u32,
    made: u32,
    starved: bool,
    pub(crate) history: Note<History>,
    ghost stands: { IsStored contents.bytes.items contents.crashed.items stop made starved
        history.value },
}

/// Whether the next call is one that fails, where so many were made.
fn is_stopped(made: u32, stop: u32) -> bool
    ensures { IsTrue result ↔ IsStopped stop (min (made + 1) (2 ^ 32 - 1)) }
{
    stop > 0 && stop <= made.saturating_add(1)
}

impl MemoryDisk {
    ghost use Rattle.std.specs.Prelude.{◌<◌, false};
    ghost use Rattle.mf_journal.specs.Memory.{IsExact, played};
    ghost use Rattle.mf_journal.specs.Told.{bytes_of, history_of};

    /// An empty disk, every call of which fails from number `stop` on, and none where that is 0.
    pub fn new(alloc: Global, stop: u32) -> MemoryDisk
        ensures { history_of result ≡ fresh [] stop }
    {
        let history = Note::pick(&stop);
        MemoryDisk {
            contents: Contents::new(alloc),
            stop,
            made: 0,
            starved: false,
            history,
        }
    }

    /// Whether a write had no memory.
    pub fn starved(&self) -> bool
        ensures { result ≡ (history_of self.now).log.lacks }
    {
        self.starved
    }

    /// Where no write had no memory, just those calls failed that were to. A read gives what was
    /// written.
    pub fn tells(&self)
        ensures failures { IsExact (history_of self.now) }
        ensures bytes { bytes_of self.now ≡
            played (history_of self.now).origin.first (history_of self.now).log.writes }
    {
        let _ = &self.stop;
    }

    /// The disk after a crash, which never stops. Of each write since the last sync that succeeded
    /// the bytes at even offsets are there, and 0xEE in place of the others.
    pub fn after_crash(self) -> MemoryDisk
        ensures { history_of result ≡
            fresh (left_by (history_of self).origin.first (history_of self).log.writes) 0 }
    {
        let history = Note::pick(&self.history);
        MemoryDisk {
            contents: self.contents.fall_back(),
            stop: 0,
            made: 0,
            starved: false,
            history,
        }
    }
}

impl Disk for MemoryDisk {
    ghost origin = { λ d. d.history.value.origin };

    ghost reads = { λ d. d.contents.bytes.items };

    ghost leaves = { λ d. IsImage d.history.value.origin.first d.history.value.log.writes };

    ghost left_since = { λ d. LeftSince d.history.value };

    ghost log = { λ d. d.history.value.log };

    ghost read_is_left = { λ d.
        read_is_image d.history.value d.contents.bytes.items d.stands.read };

    ghost now_counts = { λ d t c le now. inl now };

    ghost only_now = { λ d c left. only_since d.history.value c left };

    fn length(&mut self) -> Result<u64, Failed> {
        let fails = is_stopped(self.made, self.stop);
        let history = Note::pick(&(fails, &self.history));
        self.made = self.made.saturating_add(1);
        self.history = history;
        if fails {
            return Err(Failed);
        }
        Ok(self.contents.bytes.len() as u64)
    }

    fn read_at(&mut self, at: u64, buf: &mut [u8]) -> Result<usize, Failed> {
        let fails = is_stopped(self.made, self.stop);
        let history = Note::pick(&(fails, &self.history));
        self.made = self.made.saturating_add(1);
        self.history = history;
        if fails {
            return Err(Failed);
        }
        let start = (at as usize).min(self.contents.bytes.len());
        let (_, rest) = self.contents.bytes.split_at(start);
        let n = rest.len().min(buf.len());
        buf[..n].copy_from_slice(&rest[..n]);
        Ok(n)
    }

    fn write_at(&mut self, at: u64, bytes: &[u8]) -> Result<(), Failed> {
        let fails = is_stopped(self.made, self.stop);
        let full = self.contents.write(at as usize, bytes).is_err();
        let history = Note::pick(&(full, fails, at, bytes, &self.history));
        self.made = self.made.saturating_add(1);
        if full {
            self.starved = true;
            self.history = history;
            return Err(Failed);
        }
        self.history = history;
        if fails {
            return Err(Failed);
        }
        Ok(())
    }

    fn sync(&mut self) -> Result<(), Failed> {
        let fails = is_stopped(self.made, self.stop);
        let history = Note::pick(&(fails, &self.history));
        self.made = self.made.saturating_add(1);
        if fails {
            self.history = history;
            return Err(Failed);
        }
        self.contents.settle();
        self.history = history;
        Ok(())
    }
}
