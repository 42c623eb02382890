//! What a disk in memory reads as, and beside it what its crash would leave.
ghost use Rattle.std.specs.Prelude.{◌≡◌, ◌≤◌, ◌+◌, [], length, IfOk, OnOk, OnErr};
ghost use Rattle.mf_journal.specs.Contents.{AreSameOutside};
ghost use Rattle.mf_journal.specs.Memory.{over, shredded, shredded_byte, spliced, widened};

use std::alloc::{AllocError, Global};

/// Two lists of one length, which differ at most from `low` up to `high`.
#[derive(Drop)]
pub struct Contents {
    pub bytes: Vec<u8>,
    pub crashed: Vec<u8>,
    low: usize,
    high: usize,
    ghost same: { AreSameOutside low high bytes.items crashed.items },
}

/// Fills both lists up with zeros to a length, or leaves both.
fn widen(bytes: &mut Vec<u8>, crashed: &mut Vec<u8>, end: usize) -> Result<(), AllocError>
    requires same { length crashed.old.items ≡ length bytes.old.items }
    ensures bytes { OnOk result (bytes.new.items ≡ widened end bytes.old.items) }
    ensures crashed { OnOk result (crashed.new.items ≡ widened end crashed.old.items) }
    ensures err { OnErr result (bytes.new.items ≡ bytes.old.items) }
    ensures err_crashed { OnErr result (crashed.new.items ≡ crashed.old.items) }
{
    if end <= bytes.len() {
        return Ok(());
    }
    bytes.try_reserve(end - bytes.len())?;
    crashed.try_reserve(end - crashed.len())?;
    bytes.resize(end, 0)?;
    crashed.resize(end, 0)?;
    Ok(())
}

/// Writes over what is there.
fn splice(list: &mut Vec<u8>, at: usize, bytes: &[u8])
    requires { at + length bytes.now ≤ length list.old.items }
    ensures { list.new.items ≡ spliced at bytes.now list.old.items }
{
    list[at..at + bytes.len()].copy_from_slice(bytes);
}

/// What a crash leaves of a byte at an offset of its write.
fn kept_byte(offset: usize, byte: u8) -> u8
    ensures { result ≡ shredded_byte offset byte }
{
    if offset % 2 == 0 { byte } else { 0xEE }
}

/// Writes as a crash would leave it.
fn shred(list: &mut Vec<u8>, at: usize, bytes: &[u8])
    requires { at + length bytes.now ≤ length list.old.items }
    ensures { list.new.items ≡ spliced at (shredded 0 bytes.now) list.old.items }
{
    for i in 0..bytes.len() {
        list[at + i] = kept_byte(i, bytes[i]);
    }
}

/// Writes to both lists, or leaves both. Answers where the write ends.
fn overwrite(
    list: &mut Vec<u8>,
    crashed: &mut Vec<u8>,
    at: usize,
    bytes: &[u8],
) -> Result<usize, AllocError>
    requires same { length crashed.old.items ≡ length list.old.items }
    ensures end { IfOk result (λ end. end ≡ at + length bytes.now) }
    ensures list { OnOk result (list.new.items ≡ over at bytes.now list.old.items) }
    ensures crashed { OnOk result (crashed.new.items ≡
        over at (shredded 0 bytes.now) crashed.old.items) }
    ensures err { OnErr result (list.new.items ≡ list.old.items) }
    ensures err_crashed { OnErr result (crashed.new.items ≡ crashed.old.items) }
{
    let Some(end) = at.checked_add(bytes.len()) else {
        return Err(AllocError);
    };
    widen(list, crashed, end)?;
    splice(list, at, bytes);
    shred(crashed, at, bytes);
    Ok(end)
}

/// Copies the part from `low` up to `high`, where there is one.
fn copy_part(to: &mut Vec<u8>, from: &Vec<u8>, low: usize, high: usize)
    requires { AreSameOutside low high from.now.items to.old.items }
    ensures { to.new.items ≡ from.now.items }
{
    if low < high {
        splice(to, low, &from[low..high]);
    }
}

impl Contents {
    /// Nothing.
    pub fn new(alloc: Global) -> Contents
        ensures bytes { result.bytes.items ≡ [] }
        ensures crashed { result.crashed.items ≡ [] }
    {
        Contents {
            bytes: Vec::new(alloc),
            crashed: Vec::new(alloc),
            low: usize::MAX,
            high: 0,
        }
    }

    /// Writes to what is read, and to what a crash leaves as the crash would leave it; or leaves
    /// both.
    pub fn write(&mut self, at: usize, bytes: &[u8]) -> Result<(), AllocError>
        ensures read { OnOk result (self.new.bytes.items ≡ over at bytes.now self.old.bytes.items) }
        ensures crashed { OnOk result (self.new.crashed.items ≡
            over at (shredded 0 bytes.now) self.old.crashed.items) }
        ensures err { OnErr result (self.new.bytes.items ≡ self.old.bytes.items) }
        ensures err_crashed { OnErr result (self.new.crashed.items ≡ self.old.crashed.items) }
    {
        let end = overwrite(&mut self.bytes, &mut self.crashed, at, bytes)?;
        self.low = self.low.min(at);
        self.high = self.high.max(end);
        Ok(())
    }

    /// Makes lasting what is read, and costs what was written since it last did so.
    pub fn settle(&mut self)
        ensures bytes { self.new.bytes.items ≡ self.old.bytes.items }
        ensures crashed { self.new.crashed.items ≡ self.old.bytes.items }
    {
        copy_part(&mut self.crashed, &self.bytes, self.low, self.high);
        self.low = usize::MAX;
        self.high = 0;
    }

    /// What a crash leaves, in both lists.
    pub fn fall_back(self) -> Contents
        ensures bytes { result.bytes.items ≡ self.crashed.items }
        ensures crashed { result.crashed.items ≡ self.crashed.items }
    {
        let mut bytes = self.bytes;
        bytes.copy_from_slice(&self.crashed);
        Contents {
            bytes,
            crashed: self.crashed,
            low: usize::MAX,
            high: 0,
        }
    }
}
