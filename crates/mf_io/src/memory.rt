//! A source and a sink in memory, which give and take pieces of a chosen size and fail at chosen
//! calls.
ghost use Rattle.std.specs.Prelude.{◌≡◌, ◌<◌, ◌≤◌, ◌↔◌, [], min, length, drop, Contains, IsErr};
ghost use Rattle.std.specs.Prelude.{IfOk, IsTrue, OnErr, Some};
ghost use Rattle.std.specs.Io.{ReadsAtMost, WritesAtMost};
ghost use Rattle.std.specs.Io.KnownBytes.{ReadConsumes, WriteAppends};
ghost use Rattle.mf_io.specs.Faults.{CountsFailure};
ghost use Rattle.mf_io.specs.Memory.{Feed, Store, next_count};

use super::{Failed, Sink, Source};
use std::alloc::Global;
use std::marker::Model;

/// Gives bytes that it holds.
#[derive(Drop)]
pub struct MemorySource {
    bytes: Vec<u8>,
    taken: usize,
    piece: usize,
    fail: Vec<u32>,
    calls: u64,
    faults: u64,
}

impl Model for MemorySource {
    ghost Value = { Feed };

    ghost view = { λ s. record {
      left = drop s.taken s.bytes.items;
      piece = s.piece;
      fail = s.fail.items;
      calls = s.calls;
      faults = s.faults;
    } };

    ghost invariant = { λ s. (s.taken ≤ length s.bytes.items) × (0 < s.piece) };
}

/// Whether the call of this number is one that fails.
fn is_listed(calls: &[u32], number: u64) -> bool
    ensures { IsTrue result ↔ Contains calls.now number }
{
    calls.iter().any(|call| u64::from(*call) == number)
}

impl MemorySource {
    /// A source of these bytes that gives at most `piece` of them per call. The calls whose
    /// numbers, from 1, stand in `fail` fail, and no others.
    pub fn new(bytes: Vec<u8>, piece: usize, fail: Vec<u32>) -> Self
        requires { 0 < piece }
        ensures { result ≡ record {
          left = bytes.items;
          piece = piece;
          fail = fail.items;
          calls = 0;
          faults = 0;
        } }
    {
        MemorySource {
            bytes,
            taken: 0,
            piece,
            fail,
            calls: 0,
            faults: 0,
        }
    }
}

impl Source for MemorySource {
    ghost left = { λ s. Some s.left };

    ghost faults = { λ s. s.faults };

    fn read(&mut self, buf: &mut [u8]) -> Result<usize, Failed>
        ensures bound { ReadsAtMost result buf.new }
        ensures bytes { ReadConsumes (Some self.old.left) (Some self.new.left) result buf.new }
        ensures count { CountsFailure self.old.faults self.new.faults result }

        // The listed calls fail, and no others.
        ensures failed { IsErr result ↔ Contains self.old.fail self.new.calls }
        // The others give a whole piece, as far as there are bytes and room.
        ensures piece { IfOk result (λ n.
            n ≡ min (min (length self.old.left) (length buf.new)) self.old.piece) }
        ensures counted { OnErr result (self.new.faults ≡ next_count self.old.faults) }
        ensures calls { self.new.calls ≡ next_count self.old.calls }
        ensures kept { (self.new.piece ≡ self.old.piece) × (self.new.fail ≡ self.old.fail) }
    {
        self.calls = self.calls.saturating_add(1);
        if is_listed(&self.fail, self.calls) {
            self.faults = self.faults.saturating_add(1);
            return Err(Failed);
        }
        let (_, left) = self.bytes.split_at(self.taken);
        let n = left.len().min(buf.len()).min(self.piece);
        buf[..n].copy_from_slice(&left[..n]);
        self.taken += n;
        Ok(n)
    }
}

/// Keeps the bytes that are written to it.
#[derive(Drop)]
pub struct MemorySink {
    bytes: Vec<u8>,
    piece: usize,
    fail: Vec<u32>,
    calls: u64,
    faults: u64,
}

impl Model for MemorySink {
    ghost Value = { Store };

    ghost view = { λ s. record {
      written = s.bytes.items;
      piece = s.piece;
      fail = s.fail.items;
      calls = s.calls;
      faults = s.faults;
    } };

    ghost invariant = { λ s. 0 < s.piece };
}

impl MemorySink {
    /// An empty sink that takes at most `piece` bytes per call. The calls whose numbers, from 1,
    /// stand in `fail` fail, and so does one for whose bytes there is no memory.
    pub fn new(alloc: Global, piece: usize, fail: Vec<u32>) -> Self
        requires { 0 < piece }
        ensures { result ≡ record {
          written = [];
          piece = piece;
          fail = fail.items;
          calls = 0;
          faults = 0;
        } }
    {
        MemorySink {
            bytes: Vec::new(alloc),
            piece,
            fail,
            calls: 0,
            faults: 0,
        }
    }

    /// What was written.
    pub fn written(&self) -> &[u8]
        ensures { result.now ≡ self.now.written }
    {
        &self.bytes
    }
}

impl Sink for MemorySink {
    ghost written = { λ s. Some s.written };

    ghost faults = { λ s. s.faults };

    fn write(&mut self, piece: &[u8]) -> Result<usize, Failed>
        ensures bound { WritesAtMost result piece.now }
        ensures progress { IfOk result (λ n. 0 < length piece.now → 0 < n) }
        ensures bytes { WriteAppends (Some self.old.written) (Some self.new.written)
            result piece.now }
        ensures count { CountsFailure self.old.faults self.new.faults result }

        // The listed calls fail. Others do so for want of memory alone.
        ensures failed { Contains self.old.fail self.new.calls → IsErr result }
        ensures piece { IfOk result (λ n. n ≡ min (length piece.now) self.old.piece) }
        ensures counted { OnErr result (self.new.faults ≡ next_count self.old.faults) }
        ensures calls { self.new.calls ≡ next_count self.old.calls }
        ensures kept { (self.new.piece ≡ self.old.piece) × (self.new.fail ≡ self.old.fail) }
    {
        self.calls = self.calls.saturating_add(1);
        if is_listed(&self.fail, self.calls) {
            self.faults = self.faults.saturating_add(1);
            return Err(Failed);
        }
        let n = piece.len().min(self.piece);
        match self.bytes.extend_from_slice(&piece[..n]) {
            Ok(()) => Ok(n),
            Err(_) => {
                self.faults = self.faults.saturating_add(1);
                Err(Failed)
            }
        }
    }
}
